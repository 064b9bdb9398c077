#![tactic(auto)]

// Both sides of each edge of a file and of a holding. Standard input has titled blocks of raw bytes, a line of equals signs between
// them; a title that begins with `holding` has a holding below it, any other a file. What is too long to store is built here.
ghost use Rattle.std.specs.Prelude.{◌≤◌, length};

use answers::numbers::{Answer, Verdict};
use holding::check::check_holding;
use shown::asked::{MOST_ASKED, read_full};
use shown::built::{put_holding, put_lines, put_text, put_value};
use shown::said::{say, say_number, say_numbers, say_three};
use std::io;
use text::lines::plain_end;
use volume::check::check_file;

// The numbers of the check of a file.
fn answer_file<R: Print>(rt: &R, file: &[u8]) -> io::Result<()> {
    say_numbers(rt, Answer::from(check_file(file)))
}

// The three numbers of the check of a holding.
fn answer_holding<R: Print>(rt: &R, held: &[u8]) -> io::Result<()> {
    let v = Verdict::from(check_holding(held));
    say_three(rt, v.code, v.line, v.field)
}

// A file of so many body lines, judged.
fn long_file<R: Print>(rt: &R, count: u64) -> io::Result<()> {
    let mut out = [0u8; 262144];
    let a = put_text(
        &mut out,
        0,
        b"10,\"a\",1,2001-01-01,1,2001-01-01,000000,1.0,\"A\"\r\n",
    );
    let b = put_lines(&mut out, a, 0, count);
    let c = put_text(
        &mut out,
        b,
        b"29,\"a\",\"a\",\"a\",\"a\",\"a\",1,\"a\",\"a\",2001-01-01,\"a\",\"a\",2001-01-01,\"a\",\"a\"\r\n99,0,",
    );
    let d = put_value(&mut out, c, count);
    let e = put_text(&mut out, d, b",2001-01-01,000000\r\n");
    say_number(rt, count)?;
    say(rt, b" body lines: ")?;
    answer_file(rt, &out[0..e])?;
    say(rt, b"\n")
}

// A holding of so many lines, a street and its cross references, judged.
fn long_holding<R: Print>(rt: &R, count: u64) -> io::Result<()> {
    let mut out = [0u8; 480000];
    let n = put_holding(&mut out, count);
    say(rt, b"holding of ")?;
    say_number(rt, count)?;
    say(rt, b" lines: ")?;
    answer_holding(rt, &out[0..n])?;
    say(rt, b"\n")
}

// Where the block that starts at `at` ends: at the next line of equals signs, or where the input does.
fn block_end(s: &[u8], at: usize) -> usize
    requires { at ≤ length s.now }
    ensures { (at ≤ result) × (result ≤ length s.now) }
{
    for i in at..s.len() {
        if s[i..].starts_with(b"====\n") {
            return i;
        }
    }
    s.len()
}

// One block: its title and its answer.
fn block<R: Print>(rt: &R, b: &[u8]) -> io::Result<()> {
    let end = plain_end(b, 0);
    let title = &b[0..end];
    say(rt, title)?;
    say(rt, b": ")?;
    if end == b.len() {
        answer_file(rt, &b[end..])?;
    } else {
        let from = end + 1;
        if title.starts_with(b"holding") {
            answer_holding(rt, &b[from..])?;
        } else {
            answer_file(rt, &b[from..])?;
        }
    }
    say(rt, b"\n")
}

fn blocks<R: Print>(rt: &R, s: &[u8]) -> io::Result<()> {
    let mut at = 0;
    while at < s.len() {
        let end = block_end(s, at);
        block(rt, &s[at..end])?;
        at = end + 5;
    }
    Ok(())
}

fn main(rt: HostRuntime) -> io::Result<()> {
    let mut buf = [0u8; MOST_ASKED];
    let n = read_full(&mut rt.stdin(), &mut buf)?;
    blocks(&rt, &buf[..n])?;
    long_file(&rt, 4096)?;
    long_file(&rt, 4097)?;
    long_holding(&rt, 8192)?;
    long_holding(&rt, 8193)
}
