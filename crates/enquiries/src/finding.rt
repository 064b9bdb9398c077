// What an enquiry finds, before it is handed back: where a part stands.
ghost use Rattle.std.specs.Prelude.{◌≡◌, ◌≤◌, ◌-◌, length};
ghost use Rattle.meaning.specs.Lines.{lines_of};
ghost use Rattle.meaning.specs.Enquiries.{part_of};
ghost use Rattle.enquiries.specs.Finding.{slice_meant, part_meant, found_said};

use crate::lines::line_at;
use answers::refusal::Refusal;

// Which of the slices that are lent a part stands in: the holding, or the bytes of which a field is asked, or else the file.
#[derive(Clone, Copy, Debug, PartialEq, Eq)]
pub enum Side {
    Holding,
    File,
}

// A part: its start and its size in one of the slices.
#[derive(Clone, Copy, Debug, PartialEq, Eq)]
pub struct Part {
    pub side: Side,
    pub start: usize,
    pub size: usize,
}

// Line n of the holding or of the file, counted from 1, without CR LF.
pub fn line_found(s: &[u8], n: u64, side: Side) -> Part
    requires { (1 ≤ n) × (n ≤ length (lines_of s.now)) }
    ensures { part_meant result ≡ part_of (slice_meant side) (lines_of s.now) (n - 1) }
{
    let line = line_at(s, n).unwrap();
    Part {
        side,
        start: line.start,
        size: line.end - line.start,
    }
}

// The side on which that stands; the empty part of a refusal is one of the holding.
pub fn side_of(found: Result<Part, Refusal>) -> Side
    ensures { slice_meant result ≡ (found_said found).slice }
{
    match found {
        Ok(part) => part.side,
        Err(_) => Side::Holding,
    }
}
