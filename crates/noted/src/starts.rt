// Where the fields start by which a line that was passed refers to others.
ghost use Rattle.std.specs.Prelude.{◌≡◌, ◌<◌, ◌≤◌, ◌-◌, length, get_or};
ghost use Rattle.layout.specs.Meant.{kind_meant};
ghost use Rattle.pass.specs.Kinds.{PassedAs};
ghost use Rattle.entries.specs.Entries.{rec_of, line_at};
ghost use Rattle.noted.specs.Noted.{RefsNoted};
ghost use Rattle.noted.specs.Reads.{start_placed};

use layout::kinds::Kind;
use layout::rules::layout;

// Where the field at a place starts, by the ends of fields; 1 where there is none, or where it has no bytes.
fn start_noted(ends: &[usize], place: usize) -> usize
    requires { (place ≤ length ends.now) × (4 ≤ place → get_or ends.now (place - 2) 0 < get_or ends.now (place - 1) 0) }
    ensures { result ≡ start_placed ends.now place }
{
    if place < 4 {
        return 1;
    }
    let start = ends[place - 2] + 1;
    if start == ends[place - 1] {
        return 1;
    }
    start
}

// Where the fields start by which the record of a line that was passed refers to others, in one number; 0 where they aren't noted.
pub fn starts_noted(kind: Kind, s: &[u8], at: usize, end: usize, ends: &[usize]) -> u32
    requires { PassedAs (kind_meant kind) s.now ends.now at end }
    ensures { 0 < result → RefsNoted s.now at result (rec_of (line_at s.now at)) }
{
    let places = layout(kind).by;
    let first = start_noted(ends, places[0]);
    let second = start_noted(ends, places[1]);
    if 65535 < first || 65535 < second {
        return 0;
    }
    (first + second * 65536) as u32
}
