#![tactic(auto)]

// Takes change.csv into holding.csv, both in the folder that it is run in, and prints the answer and, on 0, the new holding.
use night::night;
use program::MOST;
use std::io;

fn main(rt: HostRuntime) -> io::Result<()> {
    let mut printed = [0u8; MOST];
    let n = night(&rt, b"holding.csv", b"change.csv", &mut printed);
    rt.write_all(&printed[0..n])
}
