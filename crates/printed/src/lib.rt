#![tactic(auto)]

// What is printed of an answer and of an output.
pub mod numbers; // the numbers of an answer as text
pub mod bare; // an output without the zeros at its end
