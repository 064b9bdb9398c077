// An enquiry's numbers in their order, as C reads them.
ghost use Rattle.std.specs.Prelude.{◌≡◌};
ghost use Rattle.enquiries.specs.Finding.{slice_meant, found_said};
ghost use Rattle.muiwash.specs.Numbers.{part_list, side_of, sided_list};

use answers::refusal::Refusal;
use enquiries::finding::{Part, Side};

// Code, line, field, and the part's start and length.
pub fn five(found: Result<Part, Refusal>) -> [u64; 5]
    ensures { result ≡ part_list (found_said found) }
{
    match found {
        Ok(Part { start, size, .. }) => [0, 0, 0, start as u64, size as u64],
        Err(
            Refusal {
                code,
                line,
                field,
                ..
            },
        ) => [u64::from(code), line, field, 0, 0],
    }
}

// 0 for the holding, 1 for the file.
pub fn side(side: Side) -> u64
    ensures { result ≡ side_of (slice_meant side) }
{
    match side {
        Side::Holding => 0,
        Side::File => 1,
    }
}

// Code, line, field, the side on which the part stands, its start and its length.
pub fn sided(found: Result<Part, Refusal>) -> [u64; 6]
    ensures { result ≡ sided_list (found_said found) }
{
    match found {
        Ok(part) => [
            0,
            0,
            0,
            side(part.side),
            part.start as u64,
            part.size as u64,
        ],
        Err(
            Refusal {
                code,
                line,
                field,
                ..
            },
        ) => [u64::from(code), line, field, 0, 0, 0],
    }
}
