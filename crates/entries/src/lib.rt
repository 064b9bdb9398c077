#![tactic(auto)]

// What an entry says: the kind, key, references and length of the record whose line it names, read where the line stands.
//
// An entry is twice the offset of its line's start, even for the holding and odd for the file. A line is walked from its start, no
// further than what is asked for, so that its end is not looked for first; past the end of the bytes stands an empty line.
pub mod fields; // the fields of the line at an offset
pub mod heads; // how such a line begins: its kind, and where its content starts
pub mod record; // the record that it carries
pub mod numbers; // the number of a field there
pub mod key; // the key of an entry's record
pub mod tags; // a number for each key, in the order of keys
pub mod references; // what a record refers to
pub mod lengths; // how long an entry's content is
