#![tactic(auto)]

// Bytes to lines, fields and numbers, and back: the first points of paper 01's 'Lines and fields'.
//
// A walk takes an offset and gives the next one; a judgement takes the part it judges. Each function is equal to one definition:
// of `meaning` where that says it, else of specs/Places (where things stand in bytes), which laws of proofs/ tie to the meaning.
// A writer writes into the front of what it is lent and leaves the rest as it was, so writers follow one another on the tail.
pub mod lines; // where a line ends, and whether it holds another CR or LF
pub mod fields; // the identifier, fields with quotes, their number
pub mod numbers; // the value of digits, and how many digits a number has
pub mod order; // numbers as numbers, text byte by byte
pub mod put; // bytes, a number and zeros, written
pub mod parts; // a part handed back, with its place
