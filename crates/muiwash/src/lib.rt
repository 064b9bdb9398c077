#![tactic(auto)]

// The operations as C calls them: what the library answers goes into a lent array, number by number.
//
// The contracts are those of the operations underneath, by the same definitions. The crate muiwash_c exports each to C.
pub mod numbers; // an answer's numbers in their order
pub mod checks; // a file, and a holding
pub mod load; // loading a file, with its undo
pub mod parts; // find, the record in force, one field of a line
