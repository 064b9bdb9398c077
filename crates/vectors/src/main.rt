#![tactic(auto)]

// Runs vectors from standard input, one to a line, and prints each behind its answer. `@11 04 0500` asks whether 0500 is sound as field 4
// of kind 11, and if not at which place it is malformed; any other line that is not empty and no comment (`#`) is taken for a record and
// answered by code, field and place.
use answers::refusal::Fault;
use layout::check::{check_line, kind_of, malformed_at, sound_at};
use layout::kinds::Kind;
use layout::rules::layout;
use shown::asked::{MOST_ASKED, read_full};
use shown::said::{say, say_line, say_number, say_three};
use std::io;
use text::lines::{is_plain_byte, plain_end};

// The answer on one field of a kind.
fn answer_field<R: Print>(rt: &R, kind: Kind, number: u64, f: &[u8]) -> io::Result<()> {
    let l = layout(kind);
    let count = l.count;
    if number < 1 {
        return say(rt, b"no such field: ");
    }
    let k = (number - 1) as usize;
    if count <= k {
        return say(rt, b"no such field: ");
    }
    if sound_at(kind, k, f) {
        return say(rt, b"sound: ");
    }
    let fault = malformed_at(kind, k, f);
    say(rt, b"malformed at ")?;
    say_number(rt, fault.place)?;
    say(rt, b": ")
}

// The answer on a vector for one field.
fn field_vector<R: Print>(rt: &R, line: &[u8]) -> io::Result<()> {
    if line.len() < 7 {
        return say(rt, b"no vector: ");
    }
    let found = kind_of(&line[1..3]);
    let number = text::numbers::value(&line[4..6]);
    match found {
        Some(kind) => answer_field(rt, kind, number, &line[7..]),
        None => say(rt, b"no kind: "),
    }
}

// The code, field and place of a fault, or three zeros.
fn say_fault<R: Print>(rt: &R, checked: Result<(), Fault>) -> io::Result<()> {
    match checked {
        Ok(()) => say(rt, b"0,0,0"),
        Err(fault) => say_three(rt, u64::from(fault.code), fault.field, fault.place),
    }
}

// The answer on a record: its code, field and place.
fn record_vector<R: Print>(rt: &R, line: &[u8]) -> io::Result<()> {
    let end = text::fields::identifier_end(line);
    match kind_of(&line[0..end]) {
        Some(kind) => say_fault(rt, check_line(kind, line))?,
        None => say(rt, b"2,1,0")?,
    }
    say(rt, b": ")
}

// One line of the input.
fn vector<R: Print>(rt: &R, line: &[u8]) -> io::Result<()> {
    match line {
        [] | [b'#', ..] => (),
        [b'@', ..] => field_vector(rt, line)?,
        _ => record_vector(rt, line)?,
    }
    say_line(rt, line)
}

fn run<R: Print>(rt: &R, s: &[u8]) -> io::Result<()> {
    for line in s.split_inclusive(|b| !is_plain_byte(*b)) {
        vector(rt, &line[..plain_end(line, 0)])?;
    }
    Ok(())
}

fn main(rt: HostRuntime) -> io::Result<()> {
    let mut buf = [0u8; MOST_ASKED];
    let n = read_full(&mut rt.stdin(), &mut buf)?;
    run(&rt, &buf[..n])
}
