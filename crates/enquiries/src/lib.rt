#![tactic(auto)]

// What the enquiries share: each answers three numbers and hands back a part of what it was lent, empty on a refusal.
//
// Each is a function that finds, and says where the part stands or why it is refused (for C, which takes no part), and a thin one that hands
// the part back. The contracts say the part's bytes and where it stands, by the definitions of the meaning's Enquiries.
pub mod lines; // one line of some bytes, by its number
pub mod finding; // what is found: where a part stands
pub mod hand; // the part that was found, handed back
