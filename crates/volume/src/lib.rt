#![tactic(auto)]

// A whole file is judged: codes 1 to 9 of paper 01, in its order within a line, lines from the first.
//
// `stages` is the automaton of header, body, metadata and trailer. `lines` judges one line before its fields (1, 2, 3, 9, 4) and after
// them (6, 7, 8); `walk` counts lines and changes; `check` passes each line in one walk, and judges those from the first that it
// doesn't pass: it walks the lines and, within each, the fields (5), and is left by label at the first fault.
pub mod stages; // where a line may stand
pub mod lines; // one line at its stage
pub mod walk; // what is counted
pub mod check; // the whole file
