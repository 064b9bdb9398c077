#![tactic(auto)]

// The records in force as an array of places, in key order: bytes stay where they are, and a step moves entries alone.
//
// The array is lent, and its first `count` entries say the records. `search` finds where a key stands among them, `moves` makes room and
// closes up, and laws of proofs/ say that the array then says what `put` of the theory says. Beside the entries stand tags, numbers by
// which most keys are told apart, and counts of how often each record is referred to, each in an array of its own that is moved as the
// entries are.
pub mod search; // where a key stands
pub mod moves; // room made, and closed up
pub mod met; // whether what a record refers to is met
pub mod counts; // how often a record is referred to
