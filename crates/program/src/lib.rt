#![tactic(auto)]

// What the program that loads a file prints: 18, or what load answers and, on 0, the new holding.
//
// No contract can say which bytes the system reads or writes, so the work is done on slices: `print` leaves in a buffer exactly what
// the meaning's `program` says. The crate `night` reads the two files and calls it, and a program writes what it left.
ghost use Rattle.std.specs.Prelude.{◌≡◌, ◌≤◌, length, is_some};
ghost use Rattle.meaning.specs.Table.{scottish};
ghost use Rattle.meaning.specs.Codes.{input_unusable};
ghost use Rattle.meaning.specs.Answers.{alone, refused_with};
ghost use Rattle.meaning.specs.Load.{load};
ghost use Rattle.meaning.specs.Program.{unusable, print_numbers, print_load, program_room};
ghost use Rattle.text.specs.Front.{in_front};
ghost use Rattle.program.specs.Outcome.{bytes_of, read_of, most_printed, PrintOutcome};

use answers::codes::Code;
use answers::numbers::Answer;
use answers::refusal::Refusal;
use loader::load;
use printed::bare::bare_length;
use printed::numbers::{MOST_OF_NUMBERS, put_numbers};
use text::put;

// The most bytes of an input, and the bytes of each buffer that load is given.
pub const ROOM: usize = 65536;

// The most bytes that are printed: the numbers of an answer, and a holding.
pub const MOST: usize = MOST_OF_NUMBERS + ROOM;

// An input that couldn't be read, or is over 65,536 bytes.
fn is_unusable(input: Option<&[u8]>) -> bool
    ensures { result ≡ unusable (read_of input.entry) }
{
    match input {
        Some(s) => ROOM < s.len(),
        None => true,
    }
}

// 18, which comes first of all.
fn print_unusable(printed: &mut [u8]) -> usize
    requires { most_printed ≤ length printed.old }
    ensures { (result ≡ length (print_numbers (refused_with (alone input_unusable)))) × (result ≤ most_printed) × (printed.new ≡ in_front (print_numbers (refused_with (alone input_unusable))) printed.old) }
{
    put_numbers(
        &mut *printed,
        Answer::from(Err(Refusal::alone(Code::InputUnusable))),
    )
}

// The numbers of load, and what stands in the buffer of the new holding before the zeros: after a refusal that is nothing. The undo is not
// printed.
fn print_load(holding: &[u8], change: &[u8], printed: &mut [u8]) -> usize
    requires { most_printed ≤ length printed.old }
    ensures { (result ≡ length (print_load (load scottish program_room program_room holding.now change.now))) × (result ≤ most_printed)
        × (printed.new ≡ in_front (print_load (load scottish program_room program_room holding.now change.now)) printed.old) }
{
    let mut out = [0u8; ROOM];
    let mut undo = [0u8; ROOM];
    let answer = Answer::from(load(holding, change, &mut out, &mut undo));
    let at = put_numbers(&mut *printed, answer);
    let size = bare_length(&out);
    at + put::bytes(&mut printed[at..], &out[0..size])
}

// What the program prints, into the front of a buffer that any of it fits: a holding or change that couldn't be read is none.
pub fn print(holding: Option<&[u8]>, change: Option<&[u8]>, printed: &mut [u8; MOST]) -> usize
    ensures in_buffer { result ≤ length printed.new }
    ensures outcome { PrintOutcome (is_some holding.entry) (bytes_of holding.entry) (is_some change.entry) (bytes_of change.entry) printed.old result printed.new }
{
    if is_unusable(holding) || is_unusable(change) {
        return print_unusable(printed);
    }
    print_load(holding.unwrap(), change.unwrap(), printed)
}
