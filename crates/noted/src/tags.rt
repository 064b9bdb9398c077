// The tags of what a line refers to, by where its fields start.
ghost use Rattle.std.specs.Prelude.{◌≡◌, ◌+◌, ◌≤◌, length, get_or};
ghost use Rattle.keys.specs.Numbers.{ref_at};
ghost use Rattle.entries.specs.Entries.{rec_of, line_at};
ghost use Rattle.entries.specs.Tags.{ref_tag};
ghost use Rattle.noted.specs.Noted.{ref_there, RefsNoted};

use entries::heads::kind_at;
use entries::numbers::value_at;
use entries::tags::{NO_TAG, tag};
use keys::Key;
use layout::rules::layout;

// The tag of the key of a kind's number by the field so many bytes into the line at `at`; 1 byte stands for no field.
fn tag_there(s: &[u8], at: usize, off: usize, to: u64) -> u64
    requires { at + off ≤ length s.now }
    ensures { result ≡ ref_tag (ref_there s.now at to off) }
{
    if off == 1 {
        return NO_TAG;
    }
    tag(Key {
        kind: to,
        first: value_at(s, at + off),
        second: 0,
        third: 0,
    })
}

// The tags of what the record of the line at `at` refers to, in the order of the table's rows, where its starts are noted; two that are 1
// are of nothing.
pub fn tags_noted(s: &[u8], at: usize, starts: u32) -> [u64; 2]
    requires { RefsNoted s.now at starts (rec_of (line_at s.now at)) }
    ensures { (get_or result 0 0 ≡ ref_tag (ref_at (rec_of (line_at s.now at)).kind (rec_of (line_at s.now at)).content 0)) × (get_or result 1 0 ≡ ref_tag (ref_at (rec_of (line_at s.now at)).kind (rec_of (line_at s.now at)).content 1)) }
{
    if starts == 65537 {
        return [NO_TAG; 2];
    }
    let to = layout(kind_at(s, at)).to;
    [
        tag_there(s, at, (starts % 65536) as usize, to[0]),
        tag_there(s, at, (starts / 65536) as usize, to[1]),
    ]
}
