#![tactic(auto)]

// What is read of a line that was passed, where the ends of its fields are noted: nothing is walked to.
pub mod key; // its key
pub mod starts; // where the fields start by which it refers to others
pub mod tags; // the tags of what it refers to
