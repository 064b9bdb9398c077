// One line of a holding by itself: sound, of a held kind, CHANGE_TYPE "I", PRO_ORDER its own number without leading zeros.
ghost use Rattle.std.specs.Prelude.{◌≡◌, true, map, T};
ghost use Rattle.std.proofs.Math.Option.{none};
ghost use Rattle.base.specs.Lists.{all, same};
ghost use Rattle.theory.specs.Decimal.{dec};
ghost use Rattle.meaning.specs.Forms.{is_digit};
ghost use Rattle.meaning.specs.Lines.{fields_of};
ghost use Rattle.meaning.specs.Table.{fields, scottish};
ghost use Rattle.meaning.specs.Holding.{held_test};
ghost use Rattle.layout.specs.Meant.{kind_meant, kind_found};
ghost use Rattle.layout.specs.Rows.{bare};
ghost use Rattle.layout.specs.Check.{lowest_bad, Parted};
ghost use Rattle.holding.specs.Held.{held_as};

use layout::check::{check_line, dates_agree, kind_at};
use layout::kinds::Kind;
use layout::rules::is_held;
use text::fields::{field, noted_field};
use text::order::is_same;

// Whether a field's text is that number without leading zeros.
fn is_number(text: &[u8], number: usize) -> bool
    ensures { result ≡ same text.now (dec number) }
{
    let mut digits = [0u8; 20];
    let width = text::put::number(&mut digits, number as u64);
    is_same(text, &digits[0..width])
}

// Whether a line of a kind is sound as the line of that number in a holding.
fn passes(kind: Kind, text: &[u8], line: usize) -> bool
    ensures { result ≡ held_test scottish line (kind_meant kind) text.now }
{
    is_held(kind)
        && check_line(kind, text).is_ok()
        && is_same(field(text, 1), b"\"I\"")
        && is_number(field(text, 2), line)
}

// Whether digits are seen to be that number without leading zeros.
fn is_running(f: &[u8], number: usize) -> bool
    requires { T (all is_digit f.now) }
    ensures { result ≡ true → same f.now (dec number) ≡ true }
{
    !f.is_empty() && f[0] != b'0' && f.len() <= 16 && text::numbers::value(f) == number as u64
}

// Whether a line that was passed, with the ends of its fields noted, is seen to be sound as the line of that number in a holding.
pub fn passes_noted(kind: Kind, text: &[u8], ends: &[usize], line: usize) -> bool
    requires { Parted (kind_meant kind) text.now ends.now × (none ≡ lowest_bad 1 (map bare (fields (kind_meant kind))) (fields_of text.now)) }
    ensures { result ≡ true → held_test scottish line (kind_meant kind) text.now ≡ true }
{
    is_held(kind)
        && dates_agree(kind, text, ends)
        && is_same(noted_field(text, ends, 1), b"\"I\"")
        && is_running(noted_field(text, ends, 2), line)
}

// The kind of the line of that number, where it ends well and is sound as such.
pub fn held_line(text: &[u8], ended: bool, line: usize) -> Option<Kind>
    ensures { kind_found result ≡ held_as line ended text.now }
{
    if !ended {
        return None;
    }
    let kind = kind_at(text)?;
    passes(kind, text, line).then_some(kind)
}
