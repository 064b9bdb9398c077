// Long bodies and holdings for the programs that try an edge: bytes and numbers into a buffer, and one street with its cross references.
ghost use Rattle.std.specs.Prelude.{◌≤◌, length};

// Bytes into the free part of a buffer, if they fit; the place after them.
pub fn put_text(out: &mut [u8], pos: usize, s: &[u8]) -> usize
    requires { pos ≤ length out.old }
    ensures { result ≤ length out.new }
{
    if out.len() - pos < s.len() {
        return pos;
    }
    pos + text::put::bytes(&mut out[pos..], s)
}

// A number into the free part of a buffer, if it fits; the place after it.
pub fn put_value(out: &mut [u8], pos: usize, n: u64) -> usize
    requires { pos ≤ length out.old }
    ensures { result ≤ length out.new }
{
    if out.len() - pos < text::numbers::width(n) {
        return pos;
    }
    pos + text::put::number(&mut out[pos..], n)
}

// The cross reference n of street 500, as line n of a body.
pub fn put_line(out: &mut [u8], pos: usize, n: u64) -> usize
    requires { pos ≤ length out.old }
    ensures { result ≤ length out.new }
{
    let a = put_text(&mut *out, pos, b"12,\"I\",");
    let b = put_value(&mut *out, a, n);
    let c = put_text(&mut *out, b, b",500,1,");
    let d = put_value(&mut *out, c, n);
    put_text(&mut *out, d, b",2001-01-01,2001-01-01,,2001-01-01\r\n")
}

// Those after `first`, up to `last`.
pub fn put_lines(out: &mut [u8], pos: usize, first: u64, last: u64) -> usize
    requires { pos ≤ length out.old }
    ensures { result ≤ length out.new }
{
    let mut at = pos;
    for n in first..last {
        at = put_line(&mut *out, at, n + 1);
    }
    at
}

// A holding of so many lines: street 500, and its cross references.
pub fn put_holding(out: &mut [u8], count: u64) -> usize
    ensures { result ≤ length out.new }
{
    let at = put_text(
        &mut *out,
        0,
        b"11,\"I\",1,500,1,1,,,,2001-01-01,2001-01-01,2001-01-01,,0.00,0.00,0.00,0.00\r\n",
    );
    put_lines(&mut *out, at, 1, count)
}
