// A holding is tested first over all lines, then for references; each gives its lowest faulty line.
ghost use Rattle.std.specs.Prelude.{◌≡◌, ◌≤◌, length};
ghost use Rattle.holding.specs.Read.{HeldIs};
ghost use Rattle.meaning.specs.Codes.{holding_unsound};
ghost use Rattle.meaning.specs.Answers.{of_line, at_line};
ghost use Rattle.meaning.specs.Holding.{most_records};
ghost use Rattle.answers.specs.Meant.{refusal_meant};

use crate::scan::scan;
use crate::unmet::unmet;
use answers::codes::Code;
use answers::refusal::Refusal;
use layout::limits::Holding;

// How many records a holding has, or its lowest faulty line. Leaves where its lines start, twice, in the front of `starts`, the tags of
// their keys in `tags`, and how often each is referred to in `counts`.
pub fn read_holding(
    holding: &[u8],
    starts: &mut [u64],
    tags: &mut [u64],
    counts: &mut [u16],
) -> Result<usize, usize>
    requires { (most_records ≤ length starts.old) × (most_records ≤ length tags.old) × (most_records ≤ length counts.old) }
    ensures { HeldIs holding.now result starts.new tags.new counts.new }
{
    let mut noted = [0u32; Holding::MOST_LINES];
    let count = scan(holding, &mut *starts, &mut *tags, &mut noted)?;
    unmet(holding, &*starts, &*tags, &noted, &mut *counts, count)?;
    Ok(count)
}

// What is refused where that is its lowest faulty line.
pub fn unsound(line: usize) -> Refusal
    ensures { refusal_meant result ≡ at_line line (of_line holding_unsound) }
{
    Refusal::of_line(line as u64, Code::HoldingUnsound)
}
