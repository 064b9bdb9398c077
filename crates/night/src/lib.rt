#![tactic(auto)]

// One night: a holding and a change file are read, and what the program prints is left in a buffer.
//
// Both are read by the system, and no contract can say which bytes that reads: those here say only that a count fits its buffer. From
// there on `print` promises every byte.
ghost use Rattle.std.specs.Prelude.{◌≤◌, length};

use crate::input::read_file;
use program::{MOST, ROOM, print};
use std::rt::Files;

pub mod input; // a file's bytes

// One byte more than an input may have: what follows in a longer file doesn't matter (`cut_holding`, `cut_change` of the crate `program`).
const ONE_MORE: usize = ROOM + 1;

// How many bytes are to be printed for the files of these names.
pub fn night<R: Files>(rt: &R, holding: &[u8], change: &[u8], printed: &mut [u8; MOST]) -> usize
    ensures { result ≤ length printed.new }
{
    let mut old = [0u8; ONE_MORE];
    let mut file = [0u8; ONE_MORE];
    let held = match read_file(rt, holding, &mut old) {
        Ok(size) => Some(&old[..size]),
        Err(_) => None,
    };
    let sent = match read_file(rt, change, &mut file) {
        Ok(size) => Some(&file[..size]),
        Err(_) => None,
    };
    print(held, sent, printed)
}
