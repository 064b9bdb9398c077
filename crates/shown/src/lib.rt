#![tactic(auto)]

// What the programs that show something share: what they build, what they are asked, and how they say what they see.
pub mod asked; // what stands on standard input
pub mod built; // long bodies and holdings
pub mod said; // words and numbers on standard output
