#![tactic(auto)]

// A whole holding is judged: code 14 of paper 01, at its lowest faulty line.
//
// `held` judges one line by itself. `scan` walks the lines once, for form, order, PRO_ORDER and number, and keeps where each starts and
// where it names others, so that the references, which come after all lines, are looked up among places and nothing is read twice from the
// front; each that is met is counted at the record that it names. `read` is both passes, and hands places and counts on to whoever works on
// the holding.
pub mod held; // one line of a holding
pub mod scan; // all lines, in order
pub mod unmet; // references, met and counted
pub mod read; // both passes, and where the records stand
pub mod check; // the three numbers
