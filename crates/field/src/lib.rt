#![tactic(auto)]

// Giving one field of a line splits any bytes, judges no field or line ending, and hands back the field with its quotes.
ghost use Rattle.std.specs.Prelude.{◌≡◌, IfErr};
ghost use Rattle.meaning.specs.Enquiries.{field_of};
ghost use Rattle.enquiries.specs.Finding.{found_said};
ghost use Rattle.enquiries.specs.Handed.{Handed};
ghost use Rattle.field.specs.FieldIs.{FieldIs};

use answers::codes::Code;
use answers::refusal::Refusal;
use enquiries::finding::{Part, Side};
use enquiries::hand::hand;
use enquiries::lines::{Span, line_at};
use text::fields::{field_count, field_end, field_start};

// Field n of a line, counted from 1; a line with odd quotes has none.
pub fn field_at(line: &[u8], n: u64) -> Option<Span>
    ensures { FieldIs line.now n result }
{
    let k = n.checked_sub(1)? as usize;
    if field_count(line) <= k {
        return None;
    }
    let start = field_start(line, k);
    let end = field_end(line, start);
    Some(Span { start, end })
}

// Where field `number` of line `line` of some bytes stands, both counted from 1: 19 for no such line or field, or odd quotes. A refusal
// names no byte.
pub fn find_field(bytes: &[u8], line: u64, number: u64) -> Result<Part, Refusal>
    ensures { (found_said result ≡ field_of bytes.now line number) × IfErr result (λ refusal. refusal.place ≡ 0) }
{
    let none = Refusal::alone(Code::NoSuchPart);
    let l = line_at(bytes, line).ok_or(none)?;
    let f = field_at(&bytes[l.start..l.end], number).ok_or(none)?;
    Ok(Part {
        side: Side::Holding,
        start: l.start + f.start,
        size: f.end - f.start,
    })
}

// Field `number` of line `line` of some bytes, with its quotes.
pub fn field<'a>(bytes: &'a [u8], line: u64, number: u64, answer: &mut [u64; 3]) -> &'a [u8]
    ensures { Handed (field_of bytes.now line number) bytes.entry result answer.new }
{
    hand(bytes, find_field(bytes, line, number), &mut *answer)
}
