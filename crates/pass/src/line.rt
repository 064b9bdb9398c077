// A line by its rows.
ghost use Rattle.std.specs.Prelude.{◌≡◌, map, ◌≤◌, ◌<◌, IfSome, length};
ghost use Rattle.layout.specs.Rows.{decoded};
ghost use Rattle.pass.specs.Passed.{Passed, Started};

use crate::field::{ROOM, past_field};
use text::lines::ends_at;

// Where the line that starts at `at` ends, if each field is seen to be sound as its row has it and a CR LF ends the last, with their ends
// noted from the line's start on. Its first field is known to be two bytes before a comma, and sound, and its end is noted.
pub fn pass_line(s: &[u8], at: usize, rows: &[u32], ends: &mut [usize]) -> Option<usize>
    requires { (length rows.now ≤ length ends.old) × Started rows.now s.now ends.old at }
    ensures { (length ends.new ≡ length ends.old) × IfSome result (λ r. Passed (map decoded rows.now) s.now ends.new at r × (r < length s.now)) }
{
    let stop = s.len().saturating_sub(ROOM); // from there on a field has less room than a leaf may look at
    let mut start = at + 3;
    for k in 1..rows.len() {
        let end = past_field(s, start, rows[k], stop)?;
        ends[k] = end - at;
        if s[end] != b',' {
            return (k + 1 == rows.len() && ends_at(s, end)).then_some(end);
        }
        start = end + 1;
    }
    None // a comma follows the last field: there is one too many
}
