// One line of some bytes, by its number.
ghost use Rattle.enquiries.specs.Handed.{LineIs};

use text::lines::line_end;

// Where a line or a field stands.
#[derive(Clone, Copy, Debug, PartialEq, Eq)]
pub struct Span {
    pub start: usize,
    pub end: usize,
}

// Line n of some bytes, counted from 1, without its ending; the last may lack one.
pub fn line_at(bytes: &[u8], n: u64) -> Option<Span>
    ensures { LineIs bytes.now n result }
{
    let mut left = n.checked_sub(1)?;
    let mut at = 0;
    while at < bytes.len() {
        let end = line_end(bytes, at);
        if left == 0 {
            return Some(Span { start: at, end });
        }
        at = end + 2;
        left -= 1;
    }
    None
}
