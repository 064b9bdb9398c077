// A file's bytes, as far as a buffer holds them.
ghost use Rattle.std.specs.Prelude.{◌≡◌, ◌<◌, ◌≤◌, IsOk, length, take};
ghost use Rattle.std.specs.Io.KnownBytes.{Consumes, IsAtEnd};
ghost use Rattle.night.specs.Read.{size_read};

use std::fs::File;
use std::io::Read;
use std::rt::Files;
use std::str::from_utf8;

// What can't be read, or not to its end: how many bytes of it stand in the buffer.
#[derive(Clone, Copy, Debug, PartialEq, Eq)]
pub struct Unreadable {
    pub size: usize,
}

// Reads on until the buffer is full, the file ends, or a read fails, and says how many bytes of the file stand in the buffer. Of a reader whose
// bytes are known, those from its front on stand there; a file of the system says nothing of its bytes.
fn read_all<F: Read>(file: &mut F, buf: &mut [u8]) -> Result<usize, Unreadable>
    ensures bound { size_read result ≤ length buf.new }
    ensures bytes { Consumes (F.remaining file.old) (F.remaining file.new) (take (size_read result) buf.new) }
    ensures end { IsOk result → size_read result < length buf.new → IsAtEnd (F.remaining file.new) }
{
    let mut size = 0;
    while size < buf.len() {
        match file.read(&mut buf[size..]) {
            Ok(0) => return Ok(size),
            Ok(more) => size += more,
            Err(_) => return Err(Unreadable { size }),
        }
    }
    Ok(size)
}

// Reads the file of that name. A name that is not UTF-8 is no file's.
pub fn read_file<R: Files>(rt: &R, path: &[u8], buf: &mut [u8]) -> Result<usize, Unreadable>
    ensures { size_read result ≤ length buf.new }
{
    let Ok(name) = from_utf8(path) else {
        return Err(Unreadable { size: 0 });
    };
    match File::open(rt, name) {
        Ok(mut file) => read_all(&mut file, buf),
        Err(_) => Err(Unreadable { size: 0 }),
    }
}

// How many bytes of it stand in the buffer, whether that is all of the file or not.
pub fn size_read(read: Result<usize, Unreadable>) -> usize
    ensures { result ≡ size_read read }
{
    match read {
        Ok(size) => size,
        Err(cut) => cut.size,
    }
}
