#![tactic(auto)]

// Example nights. Standard input names folders, each with the two files of a night and, in `printed`, what the program prints for them;
// each is run and compared byte for byte. Cases that no file of 65,536 bytes can hold, or no buffer of as many, are built here.
ghost use Rattle.std.specs.Prelude.{◌≡◌, ◌≤◌, length};

use answers::numbers::Answer;
use loader::load;
use night::input::{read_file, size_read};
use night::night;
use program::{MOST, print};
use shown::asked::{MOST_ASKED, read_full};
use shown::built::{put_holding, put_text};
use shown::said::{say, say_line, say_number, say_numbers};
use std::io;
use std::rt::Files;
use text::lines::{is_plain_byte, plain_end};

// The first line of what was printed.
fn say_first<R: Print>(rt: &R, s: &[u8]) -> io::Result<()> {
    let end = plain_end(s, 0);
    say_line(rt, &s[0..end])
}

// The path of a file in a folder.
fn path(folder: &[u8], file: &[u8], out: &mut [u8; 256]) -> usize
    ensures { result ≤ length out.new }
{
    let at = put_text(out, 0, folder);
    let end = put_text(out, at, b"/");
    put_text(out, end, file)
}

// Runs the night of a folder, and says whether it is as stored.
fn run<R: Files + Print>(rt: &R, folder: &[u8]) -> io::Result<()> {
    let mut holding = [0u8; 256];
    let mut change = [0u8; 256];
    let mut stored = [0u8; 256];
    let h = path(folder, b"holding.csv", &mut holding);
    let c = path(folder, b"change.csv", &mut change);
    let p = path(folder, b"printed", &mut stored);
    let mut printed = [0u8; MOST];
    let n = night(rt, &holding[0..h], &change[0..c], &mut printed);
    let mut kept = [0u8; MOST];
    let m = size_read(read_file(rt, &stored[0..p], &mut kept));
    say(rt, folder)?;
    if printed[0..n] == kept[0..m] {
        say(rt, b" as stored: ")?;
    } else {
        say(rt, b" NOT AS STORED: ")?;
    }
    say_first(rt, &printed[0..n])
}

fn nights<R: Files + Print>(rt: &R, s: &[u8]) -> io::Result<()> {
    for folder in s.split_inclusive(|b| !is_plain_byte(*b)) {
        run(rt, &folder[..plain_end(folder, 0)])?;
    }
    Ok(())
}

// What load answers with so many bytes of what is lent for the new holding, and of what is lent for the undo.
fn answer<R: Print>(
    rt: &R,
    holding: &[u8],
    file: &[u8],
    out: &mut [u8],
    size: usize,
    undo: &mut [u8],
    undo_size: usize,
) -> io::Result<()> {
    if out.len() < size || undo.len() < undo_size {
        return Ok(());
    }
    let loaded = load(holding, file, &mut out[0..size], &mut undo[0..undo_size]);
    say_numbers(rt, Answer::from(loaded))?;
    say(rt, b"\n")
}

// Room for a holding of 8,192 lines.
fn room() -> [u8; 500000]
    ensures { 500000 ≡ length result }
{
    [0; 500000]
}

// The file insert.csv, which inserts street 501, into a holding.
fn insert<R: Files + Print>(
    rt: &R,
    holding: &[u8],
    size: usize,
    undo_size: usize,
) -> io::Result<()> {
    say_number(rt, holding.len() as u64)?;
    say(rt, b" bytes and an insert, buffers of ")?;
    say_number(rt, size as u64)?;
    say(rt, b" and ")?;
    say_number(rt, undo_size as u64)?;
    say(rt, b": ")?;
    let mut file = [0u8; 512];
    let n = size_read(read_file(rt, b"insert.csv", &mut file));
    let mut out = room();
    let mut undo = [0u8; 512];
    answer(
        rt,
        holding,
        &file[0..n],
        &mut out,
        size,
        &mut undo,
        undo_size,
    )
}

// A holding of so many lines, street 500 and its cross references, with the insert and buffers of so many bytes.
fn built<R: Files + Print>(rt: &R, count: u64, size: usize, undo_size: usize) -> io::Result<()> {
    let mut held = room();
    let n = put_holding(&mut held, count);
    say_number(rt, count)?;
    say(rt, b" lines of ")?;
    insert(rt, &held[0..n], size, undo_size)
}

// Inputs of so many zeros, as a holding and as a change file.
fn zeros<R: Print>(rt: &R, size: usize) -> io::Result<()>
    requires { size ≤ 65537 }
{
    let s = [0u8; 65537];
    let mut printed = [0u8; MOST];
    let n = print(Some(&s[0..size]), Some(b""), &mut printed);
    say_number(rt, size as u64)?;
    say(rt, b" zeros for a holding: ")?;
    say_first(rt, &printed[0..n])?;
    let m = print(Some(b""), Some(&s[0..size]), &mut printed);
    say_number(rt, size as u64)?;
    say(rt, b" zeros for a change: ")?;
    say_first(rt, &printed[0..m])
}

fn main(rt: HostRuntime) -> io::Result<()> {
    let mut names = [0u8; MOST_ASKED];
    let n = read_full(&mut rt.stdin(), &mut names)?;
    nights(&rt, &names[..n])?;
    built(&rt, 8191, 500000, 512)?;
    built(&rt, 8192, 500000, 512)?;
    built(&rt, 1, 74, 512)?;
    built(&rt, 1, 75, 512)?;
    built(&rt, 1, 149, 512)?;
    built(&rt, 1, 150, 512)?;
    built(&rt, 1, 150, 222)?;
    built(&rt, 1, 150, 221)?;
    built(&rt, 1, 149, 221)?;
    zeros(&rt, 65536)?;
    zeros(&rt, 65537)
}
