#![tactic(auto)]

// What the loader writes: the lines of a new holding, and of an undo's body, once, front to back.
//
// Each line goes into the part of the output that is still free: a writer is lent the tail, writes into its front and gives the number
// of bytes written, so writers follow one another by one law, `front_then` of text. Nothing here goes by a kind: its number is written.
pub mod changes; // what a body line does to its record
pub mod lines; // one line
pub mod entry; // the line of an entry's record
pub mod runs; // the holding, and the undo's body
