// A field by its row.
ghost use Rattle.std.specs.Prelude.{◌≡◌, true, [], ◌+◌, ◌-◌, ◌≤◌, length};
ghost use Rattle.layout.specs.Rows.{sound_by};
ghost use Rattle.pass.specs.Past.{Past};

use crate::leaves::{
    past_at_least_1, past_change_type, past_date, past_decimal, past_file_type, past_key,
    past_number, past_text, past_time, past_xref_type,
};
use form::{Form, is_textual};
use layout::rules::{form_of, is_mandatory};

// How many bytes a field's leaf may look at.
pub const ROOM: usize = 40;

// Where a filled field ends, if it is seen to be sound.
#[inline(always)]
fn past_filled(s: &[u8], at: usize, row: u32) -> Option<usize>
    requires { at + 40 ≤ length s.now }
    ensures { Past (sound_by row) s.now at result }
{
    match form_of(row) {
        Form::Number(w) => past_number(s, at, w),
        Form::AtLeast1(w) => past_at_least_1(s, at, w),
        Form::Decimal(w, d) => past_decimal(s, at, w, d),
        Form::Date => past_date(s, at),
        Form::Time => past_time(s, at),
        Form::Text(w) => past_text(s, at, is_mandatory(row), w),
        Form::ChangeType => past_change_type(s, at),
        Form::XrefType => past_xref_type(s, at),
        Form::FileType => past_file_type(s, at),
        Form::KeyText(letter) => past_key(s, at, letter),
    }
}

// Whether a row allows no bytes.
fn may_be_none(row: u32) -> bool
    ensures { result ≡ true → sound_by row [] ≡ true }
{
    !is_mandatory(row) && !is_textual(form_of(row))
}

// Where the field that starts at `at` ends, if it is seen to be sound as its row has it and starts before `stop`.
#[inline(always)]
pub fn past_field(s: &[u8], at: usize, row: u32, stop: usize) -> Option<usize>
    requires { stop ≡ length s.now - 40 }
    ensures { Past (sound_by row) s.now at result }
{
    if stop <= at {
        return None;
    }
    if s[at] == b',' {
        return may_be_none(row).then_some(at);
    }
    past_filled(s, at, row)
}
