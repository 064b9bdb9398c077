// Each answers where a field of its form ends that starts at `at`, if it sees one. What is seen is sound; what isn't may be.
//
// The bytes go on for longer than any number, date or key is, which is asked once for each field, and not for each byte.
ghost use Rattle.std.specs.Prelude.{◌≡◌, ◌+◌, ◌≤◌, IfSome, length};
ghost use Rattle.meaning.specs.Forms.{number, at_least1, decimal, date, time, text, change_type, xref_type, file_type, key_text, has_form, sound_as, by_characters};
ghost use Rattle.pass.specs.Past.{Past};

use form::codes::is_file_type;
use form::texts::{is_key, is_text};
use number::calendar::is_time;
use number::{has_digits, is_worth_1};
use words::dates::is_usual_date;
use words::runs::{past_ascii, past_digits};

// N w.
pub fn past_number(s: &[u8], at: usize, w: usize) -> Option<usize>
    requires { at + 17 ≤ length s.now }
    ensures { Past (has_form by_characters (number w)) s.now at result × IfSome result (λ r. r ≤ at + 16) }
{
    let end = past_digits(s, at);
    if end == at || w < end - at {
        return None;
    }
    Some(end)
}

// N w that is at least 1.
pub fn past_at_least_1(s: &[u8], at: usize, w: usize) -> Option<usize>
    requires { at + 40 ≤ length s.now }
    ensures { Past (has_form by_characters (at_least1 w)) s.now at result }
{
    let end = past_number(s, at, w)?;
    is_worth_1(&s[at..end]).then_some(end)
}

// N w.d.
pub fn past_decimal(s: &[u8], at: usize, w: usize, d: usize) -> Option<usize>
    requires { (at + 40 ≤ length s.now) × (d ≤ 15) }
    ensures { Past (has_form by_characters (decimal w d)) s.now at result }
{
    let from = at + usize::from(s[at] == b'-');
    let point = past_number(s, from, w)?;
    if s[point] != b'.' {
        return None;
    }
    let start = point + 1;
    let end = start + d;
    has_digits(&s[start..end], d).then_some(end)
}

// CCYY-MM-DD.
pub fn past_date(s: &[u8], at: usize) -> Option<usize>
    requires { at + 40 ≤ length s.now }
    ensures { Past (has_form by_characters date) s.now at result }
{
    is_usual_date(s, at).then_some(at + 10)
}

// HHMMSS.
pub fn past_time(s: &[u8], at: usize) -> Option<usize>
    requires { at + 40 ≤ length s.now }
    ensures { Past (has_form by_characters time) s.now at result }
{
    let end = at + 6;
    is_time(&s[at..end]).then_some(end)
}

// CHANGE_TYPE.
pub fn past_change_type(s: &[u8], at: usize) -> Option<usize>
    requires { at + 40 ≤ length s.now }
    ensures { Past (has_form by_characters change_type) s.now at result }
{
    let end = at + 3;
    match &s[at..end] {
        [b'"', b'I' | b'U' | b'D', b'"'] => Some(end),
        _ => None,
    }
}

// XREF_TYPE.
pub fn past_xref_type(s: &[u8], at: usize) -> Option<usize>
    requires { at + 40 ≤ length s.now }
    ensures { Past (has_form by_characters xref_type) s.now at result }
{
    match s[at] {
        b'1' | b'2' => Some(at + 1),
        _ => None,
    }
}

// FILE_TYPE.
pub fn past_file_type(s: &[u8], at: usize) -> Option<usize>
    requires { at + 40 ≤ length s.now }
    ensures { Past (has_form by_characters file_type) s.now at result }
{
    let end = at + 3;
    is_file_type(&s[at..end]).then_some(end)
}

// Four digits, a letter, nine digits, in quotes.
pub fn past_key(s: &[u8], at: usize, letter: u8) -> Option<usize>
    requires { at + 40 ≤ length s.now }
    ensures { Past (has_form by_characters (key_text letter)) s.now at result }
{
    let end = at + 16;
    is_key(&s[at..end], letter).then_some(end)
}

// T w with other characters than ASCII, of which the first stands at `from` or later: judged as the exact check does.
fn past_characters(s: &[u8], at: usize, from: usize, w: usize) -> Option<usize>
    requires { (at + 1 ≤ from) × (from ≤ length s.now) }
    ensures { Past (has_form by_characters (text w)) s.now at result }
{
    let last = from + s[from..].iter().position(|&b| b == b'"')?;
    let end = last + 1;
    (end < s.len() && is_text(&s[at..end], w)).then_some(end)
}

// T w, and whether it must be filled.
pub fn past_text(s: &[u8], at: usize, filled: bool, w: usize) -> Option<usize>
    requires { at + 40 ≤ length s.now }
    ensures { Past (sound_as by_characters (text w) filled) s.now at result }
{
    if s[at] != b'"' {
        return None;
    }
    let from = at + 1;
    if s[from] == b'"' {
        return (!filled).then_some(from + 1);
    }
    let last = past_ascii(s, from);
    if s.len() - last <= 1 {
        return None;
    }
    if s[last] != b'"' {
        return past_characters(s, at, last, w);
    }
    (last - from <= w).then_some(last + 1)
}
