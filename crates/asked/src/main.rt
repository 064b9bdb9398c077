#![tactic(auto)]

// Asks what standard input says, one enquiry to a line, its words divided by commas, and prints each before its answer: the three numbers
// and, in brackets, the part that is handed back. The files that it names stand in data/.
//   find,KIND,NUMBER,HOLDING             the held line of a street or BLPU
//   in_force,KIND,NUMBER,HOLDING,FILE    its line in force if the file were taken
//   field,LINE,FIELD,FILE                one field of a line
//   lines,FILE                           every line, as a reader hands them out
use field::field;
use find::find;
use in_force::in_force;
use night::input::{read_file, size_read};
use reader::Reader;
use shown::asked::{MOST_ASKED, read_full};
use shown::said::{say, say_line, say_three};
use std::io;
use std::rt::Files;
use text::lines::{is_plain_byte, plain_end};

// The bytes of each buffer: a holding, or a file.
const ROOM: usize = 4096;

// Word k of an enquiry, counted from 0.
fn word(line: &[u8], k: usize) -> &[u8] {
    text::fields::field(line, k)
}

// The same as a number of at most 16 digits; 0 for a longer one.
fn number(line: &[u8], k: usize) -> u64 {
    let digits = word(line, k);
    if 16 < digits.len() {
        return 0;
    }
    text::numbers::value(digits)
}

// The part, between brackets.
fn say_part<R: Print>(rt: &R, part: &[u8]) -> io::Result<()> {
    say(rt, b"[")?;
    say(rt, part)?;
    say(rt, b"]\n")
}

// The numbers and the part that an enquiry gives back.
fn say_answer<R: Print>(rt: &R, answer: &[u64; 3], part: &[u8]) -> io::Result<()> {
    say(rt, b": ")?;
    say_three(rt, answer[0], answer[1], answer[2])?;
    say(rt, b" ")?;
    say_part(rt, part)
}

fn ask_find<R: Files + Print>(rt: &R, line: &[u8]) -> io::Result<()> {
    let mut holding = [0u8; ROOM];
    let n = size_read(read_file(rt, word(line, 3), &mut holding));
    let mut answer = [0u64; 3];
    let part = find(
        &holding[0..n],
        number(line, 1),
        number(line, 2),
        &mut answer,
    );
    say_answer(rt, &answer, part)
}

fn ask_in_force<R: Files + Print>(rt: &R, line: &[u8]) -> io::Result<()> {
    let mut holding = [0u8; ROOM];
    let mut file = [0u8; ROOM];
    let n = size_read(read_file(rt, word(line, 3), &mut holding));
    let m = size_read(read_file(rt, word(line, 4), &mut file));
    let mut answer = [0u64; 3];
    let part = in_force(
        &holding[0..n],
        &file[0..m],
        number(line, 1),
        number(line, 2),
        &mut answer,
    );
    say_answer(rt, &answer, part)
}

fn ask_field<R: Files + Print>(rt: &R, line: &[u8]) -> io::Result<()> {
    let mut bytes = [0u8; ROOM];
    let n = size_read(read_file(rt, word(line, 3), &mut bytes));
    let mut answer = [0u64; 3];
    let part = field(&bytes[0..n], number(line, 1), number(line, 2), &mut answer);
    say_answer(rt, &answer, part)
}

// Every line of some bytes, as a reader hands them out.
fn hand_out<R: Print>(rt: &R, bytes: &[u8]) -> io::Result<()> {
    for line in Reader::new(bytes, 0) {
        say_part(rt, line)?;
    }
    Ok(())
}

fn ask_lines<R: Files + Print>(rt: &R, line: &[u8]) -> io::Result<()> {
    let mut bytes = [0u8; ROOM];
    let n = size_read(read_file(rt, word(line, 1), &mut bytes));
    say(rt, b":\n")?;
    hand_out(rt, &bytes[0..n])
}

// One enquiry, and its answer.
fn ask<R: Files + Print>(rt: &R, line: &[u8]) -> io::Result<()> {
    let what = word(line, 0);
    say(rt, line)?;
    match what {
        b"find" => ask_find(rt, line),
        b"in_force" => ask_in_force(rt, line),
        b"field" => ask_field(rt, line),
        b"lines" => ask_lines(rt, line),
        _ => say(rt, b": no enquiry\n"),
    }
}

// One line of the input: a comment (`#`), or an enquiry.
fn enquiry<R: Files + Print>(rt: &R, line: &[u8]) -> io::Result<()> {
    match line {
        [] => Ok(()),
        [b'#', ..] => say_line(rt, line),
        _ => ask(rt, line),
    }
}

fn enquiries<R: Files + Print>(rt: &R, s: &[u8]) -> io::Result<()> {
    for line in s.split_inclusive(|b| !is_plain_byte(*b)) {
        enquiry(rt, &line[..plain_end(line, 0)])?;
    }
    Ok(())
}

fn main(rt: HostRuntime) -> io::Result<()> {
    let mut buf = [0u8; MOST_ASKED];
    let n = read_full(&mut rt.stdin(), &mut buf)?;
    enquiries(&rt, &buf[..n])
}
