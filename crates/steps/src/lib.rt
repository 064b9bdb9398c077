#![tactic(auto)]

// One step of a file over the records in force, and the run over all of them.
//
// The records in force are an array of places with their number and the bytes that they make as a holding, and beside it the tags of their
// keys and counts of how often each is referred to. A step is judged first (`judge`), and only then made: an entry more, another in its
// place, or one less, with the references that come counted in and those that go counted out.
pub mod step; // a step made
pub mod run; // all steps of a file
