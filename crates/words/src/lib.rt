#![tactic(auto)]

// Bytes read eight at a time. A word is eight bytes as one number, the first the lowest. A mark is the highest bit of a byte of a word, set
// where that byte is not of the class that is asked for; the marks of all eight are made at once. A run is the bytes of the class that
// stand together from a place on: it ends at the lowest mark.
pub mod word; // the number, and its marks
pub mod runs; // runs of bytes of one class
pub mod dates; // a date's ten bytes
