#![tactic(auto)]

// The promises: a small caller for each public operation and for each function for C, with no `requires`, whose `ensures` is what is claimed
// of the answer and of the bytes. So a contract below that says less breaks a proof here.
//
// What is claimed stands in specs/, in the order of its Lib: theorems of demands 1, 2 and 3 over an operation's outcome; the claims that the
// callers ensure, made of them; one outcome only; the [p] table. docs/PROMISES.md maps the sentences of the demands to these.
pub mod checks; // a file, and a holding
pub mod loads; // loading a file
pub mod back; // a file that is taken, and handed back
pub mod parts; // find, the record in force, one field of a line
pub mod prints; // what the program prints
pub mod for_c; // the same of the functions for C
