#![tactic(auto)]

// The few words that all definitions are made of, and the laws of lists and tests that all proofs cite: no code.
