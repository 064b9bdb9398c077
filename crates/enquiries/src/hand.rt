// The part that was found is handed back as it stands in what was lent.
ghost use Rattle.std.specs.Prelude.{◌≤◌, ◌+◌, length};
ghost use Rattle.enquiries.specs.Finding.{found_said};
ghost use Rattle.enquiries.specs.Handed.{Handed};

use crate::finding::Part;
use answers::numbers::{Verdict, three};
use answers::refusal::Refusal;
use text::parts::part;

// The three numbers, and the part; an empty one on a refusal.
pub fn hand<'a>(s: &'a [u8], found: Result<Part, Refusal>, answer: &mut [u64; 3]) -> &'a [u8]
    requires { (found_said found).start + (found_said found).size ≤ length s.now }
    ensures { Handed (found_said found) s.entry result answer.new }
{
    match found {
        Ok(p) => {
            *answer = three(Verdict::from(Ok(())));
            part(s, p.start, p.start + p.size)
        }
        Err(refusal) => {
            *answer = three(Verdict::from(Err(refusal)));
            part(s, 0, 0)
        }
    }
}
