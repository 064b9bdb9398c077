#![tactic(auto)]

// Six nights forward and back, the last with no body. Each file is loaded into the holding that the one before it left, and the undo that
// the load leaves is compared with the file: only without a body it is the file itself. The undos are then handed in, last first, and each
// holding on the way back is compared byte for byte with the one that stood there going forward. Each of these loads leaves an undo too:
// its length is said beside that of the file and its undo together, which is always enough. The undo of paper 01's worked example is
// printed whole.
use answers::numbers::Answer;
use loader::load;
use night::input::{read_file, size_read};
use printed::bare::bare_length;
use shown::built::put_text;
use shown::said::{say, say_number, say_numbers};
use std::io;
use std::rt::Files;
use volume::check::check_file;

// The bytes of each buffer: a holding, a change file or an undo.
const ROOM: usize = 16384;

// The bytes of a change file's name.
const NAME: usize = 5;

// The numbers of an answer, after what they are of.
fn say_answer<R: Print>(rt: &R, what: &[u8], a: Answer) -> io::Result<()> {
    say(rt, what)?;
    say_numbers(rt, a)
}

// What stands before the zeros of two buffers, compared.
fn is_as_stood(a: &[u8], b: &[u8]) -> bool {
    let n = bare_length(a);
    let m = bare_length(b);
    a[0..n] == b[0..m]
}

// Whether an undo is the file itself.
fn say_which<R: Print>(rt: &R, undone: &[u8], file: &[u8]) -> io::Result<()> {
    if undone == file {
        say(rt, b", the file itself")
    } else {
        say(rt, b", another file")
    }
}

// What a file's undo is, beside the file.
fn say_undo<R: Print>(rt: &R, undone: &[u8], file: &[u8]) -> io::Result<()> {
    let k = bare_length(undone);
    say(rt, b"; its undo")?;
    say_which(rt, &undone[0..k], file)?;
    say_answer(
        rt,
        b", and checked: ",
        Answer::from(check_file(&undone[0..k])),
    )?;
    say(rt, b"\n")
}

// Loads the file of that name into the holding, and leaves its undo.
fn forward<R: Files + Print>(
    rt: &R,
    name: &[u8],
    holding: &[u8],
    next: &mut [u8],
    undone: &mut [u8],
) -> io::Result<()> {
    let mut file = [0u8; ROOM];
    let m = size_read(read_file(rt, name, &mut file));
    let n = bare_length(holding);
    say(rt, name)?;
    let answer = Answer::from(load(&holding[0..n], &file[0..m], &mut *next, &mut *undone));
    say_answer(rt, b" taken: ", answer)?;
    say_undo(rt, &*undone, &file[0..m])
}

// How long the undo of an undo is, beside what is always enough for it.
fn say_again<R: Files + Print>(rt: &R, again: &[u8], name: &[u8], undone: usize) -> io::Result<()> {
    let mut file = [0u8; ROOM];
    let m = size_read(read_file(rt, name, &mut file));
    say(rt, b"; its own undo has ")?;
    say_number(rt, bare_length(again) as u64)?;
    say(rt, b" bytes of ")?;
    say_number(rt, m as u64)?;
    say(rt, b" + ")?;
    say_number(rt, undone as u64)?;
    say(rt, b"\n")
}

// Hands the undo of the file of that name in to the holding, and says whether what comes of it is what stood before that file.
fn back<R: Files + Print>(
    rt: &R,
    name: &[u8],
    holding: &[u8],
    undone: &[u8],
    stood: &[u8],
    out: &mut [u8],
) -> io::Result<()> {
    let mut again = [0u8; ROOM];
    let n = bare_length(holding);
    let m = bare_length(undone);
    say(rt, name)?;
    let answer = Answer::from(load(&holding[0..n], &undone[0..m], &mut *out, &mut again));
    say_answer(rt, b" handed back: ", answer)?;
    if is_as_stood(&*out, stood) {
        say(rt, b" same")?;
    } else {
        say(rt, b" other")?;
    }
    say_again(rt, &again, name, m)
}

// The undo of the worked example, whole.
fn worked<R: Files + Print>(rt: &R) -> io::Result<()> {
    let mut holding = [0u8; ROOM];
    let mut file = [0u8; ROOM];
    let mut next = [0u8; ROOM];
    let mut undone = [0u8; ROOM];
    let n = size_read(read_file(rt, b"worked/holding.csv", &mut holding));
    let m = size_read(read_file(rt, b"worked/change.csv", &mut file));
    let answer = Answer::from(load(&holding[0..n], &file[0..m], &mut next, &mut undone));
    say_answer(rt, b"The undo of the worked example: ", answer)?;
    say(rt, b"\n")?;
    let k = bare_length(&undone);
    say(rt, &undone[0..k])
}

// The nights of these names, from the holding on, and back to it: `out` is left with what the first night's undo gives.
fn nights<R: Files + Print>(
    rt: &R,
    names: &[u8],
    holding: &[u8],
    out: &mut [u8],
) -> io::Result<()> {
    if names.len() < NAME {
        put_text(&mut *out, 0, holding);
    } else {
        let mut next = [0u8; ROOM];
        let mut undone = [0u8; ROOM];
        let mut home = [0u8; ROOM];
        forward(rt, &names[0..NAME], holding, &mut next, &mut undone)?;
        nights(rt, &names[NAME..], &next, &mut home)?;
        back(rt, &names[0..NAME], &home, &undone, holding, &mut *out)?;
    }
    Ok(())
}

fn main(rt: HostRuntime) -> io::Result<()> {
    let mut holding = [0u8; ROOM];
    let mut home = [0u8; ROOM];
    let _ = read_file(&rt, b"holding.csv", &mut holding);
    nights(&rt, b"1.csv2.csv3.csv4.csv5.csv6.csv", &holding, &mut home)?;
    if is_as_stood(&home, &holding) {
        say(&rt, b"home\n")?;
    }
    worked(&rt)
}
