// What the programs that show something say on standard output: words, numbers, and those of an answer.
//
// No contract can say which bytes reach the system, so these promise nothing; what a program says is compared with its file `stdout`.
use answers::numbers::{Answer, in_order};
use std::io;

// Words.
pub fn say<R: Print>(rt: &R, words: &[u8]) -> io::Result<()> {
    rt.write_all(words)
}

// Words, and the end of the line.
pub fn say_line<R: Print>(rt: &R, words: &[u8]) -> io::Result<()> {
    say(rt, words)?;
    say(rt, b"\n")
}

// A number.
pub fn say_number<R: Print>(rt: &R, n: u64) -> io::Result<()> {
    print!(rt; "{n}")
}

// Three numbers with commas.
pub fn say_three<R: Print>(rt: &R, a: u64, b: u64, c: u64) -> io::Result<()> {
    print!(rt; "{a},{b},{c}")
}

// The numbers of an answer.
pub fn say_numbers<R: Print>(rt: &R, a: Answer) -> io::Result<()> {
    let numbers = in_order(a);
    say_number(rt, numbers[0])?;
    for number in &numbers[1..] {
        print!(rt; ",{number}")?;
    }
    Ok(())
}
