#![tactic(auto)]

// The field layout of every kind is one table, and the check of a line walks it.
//
// `records` is the table: for each kind its number, its fields' forms and statuses, its dates, its key and what it refers to, as
// associated constants. Everything else asks the table through `kinds` and `rules`, so another kind is another row, and an arm where a
// kind is matched.
pub mod kinds; // the kinds, and which of them are held
pub mod records; // the table
pub mod rules; // a row of the table, read
pub mod begins; // what a field that is sound by its row may begin with
pub mod place; // which byte of a malformed field is wrong
pub mod check; // the check of one line
pub mod limits; // how many lines a holding and a file may have
