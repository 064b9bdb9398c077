// What a program that shows something is asked: the bytes of standard input, as far as a buffer holds them.
ghost use Rattle.std.specs.Prelude.{◌≤◌, length, IfOk};

use std::io;
use std::io::Read;

// The bytes of a buffer for standard input.
pub const MOST_ASKED: usize = 65536;

// Reads on until the buffer is full or the input ends; how many bytes of it stand in the buffer.
pub fn read_full<R: Read>(input: &mut R, buf: &mut [u8]) -> io::Result<usize>
    ensures { IfOk result (λ n. n ≤ length buf.new) }
{
    let mut size = 0;
    while size < buf.len() {
        let more = input.read(&mut buf[size..])?;
        if more == 0 {
            return Ok(size);
        }
        size += more;
    }
    Ok(size)
}
