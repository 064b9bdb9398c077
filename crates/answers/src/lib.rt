#![tactic(auto)]

// What is refused and where, and the numbers that the operations answer.
//
// A number more in a refusal or in an answer is one more field here and in the meaning's Answers; whoever refuses makes a fault or a
// refusal by the functions below and hands it on as an `Err`, and the numbers of an answer are made of that by `From`, so nothing else
// spells them out.
pub mod codes; // the codes by name
pub mod refusal; // a line's fault, and a refusal
pub mod numbers; // the numbers of an answer, made of what is taken or refused
