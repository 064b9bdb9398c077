#![tactic(auto)]

// A sound line is passed in one walk over its bytes.
//
// A leaf of `leaves` reads from an offset on and answers where a field of its form ends, if it sees one; what it sees is sound. `field` goes by the
// row of the table to the leaf, `line` by the rows of a kind from field to field, and `kind` by a line's identifier to its rows. A line
// that isn't seen to be sound may be so all the same: who asks judges it again, by the exact check.
pub mod leaves; // a field of each form
pub mod field; // a field by its row
pub mod line; // a line by its rows
pub mod kind; // a line by its kind
