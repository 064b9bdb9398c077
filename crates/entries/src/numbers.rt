// The number of the field at an offset of a line, by which keys compare it.
ghost use Rattle.std.specs.Prelude.{◌≡◌, ◌≤◌, length, get_or, take};
ghost use Rattle.theory.specs.Decimal.{value};
ghost use Rattle.form.specs.Meant.{meant};
ghost use Rattle.layout.specs.Meant.{kind_meant};
ghost use Rattle.layout.specs.Rows.{laid_out};
ghost use Rattle.keys.specs.Numbers.{number_of};
ghost use Rattle.keys.specs.Places.{number_at};
ghost use Rattle.entries.specs.Entries.{line_at};
ghost use Rattle.entries.specs.Fields.{first_field};

use crate::fields::{first_field, past_fields};
use form::Form;
use keys::numbers::{form_at, plain_number, text_number};
use layout::kinds::Kind;
use layout::rules::layout;

// The value of the field at `at`, or of its first 16 bytes: digit by digit up to a comma, or by the field where another byte comes first.
pub fn value_at(bytes: &[u8], at: usize) -> u64
    requires { at ≤ length bytes.now }
    ensures { result ≡ value (take 16 (first_field (line_at bytes.now at))) }
{
    let most = bytes.len().min(at + 16);
    let mut value: u64 = 0;
    for i in at..most {
        let b = bytes[i];
        if b < b'0' {
            if b == b',' {
                return value;
            }
            return plain_number(first_field(bytes, at));
        }
        value = value * 10 + u64::from(b - b'0');
    }
    value
}

// The number of the field at `at`.
pub fn number_here(form: Form, bytes: &[u8], at: usize) -> u64
    requires { at ≤ length bytes.now }
    ensures { result ≡ number_of (meant form) (first_field (line_at bytes.now at)) }
{
    if form::is_textual(form) {
        return text_number(first_field(bytes, at));
    }
    value_at(bytes, at)
}

// The first number of the key of a record whose content stands in the line from `content` on. No kind's key begins with a text in
// field 4, so that its form is not looked up there.
pub fn first_number(kind: Kind, bytes: &[u8], content: usize) -> u64
    requires { content ≤ length bytes.now }
    ensures { result ≡ number_at (kind_meant kind) (line_at bytes.now content) (get_or (laid_out (kind_meant kind)).key 0 0) }
{
    let place = layout(kind).key[0];
    if place == 4 {
        return value_at(bytes, content);
    }
    number_at(kind, bytes, content, place)
}

// The number of the field at a place of a record whose content stands in the line from `content` on; 0 where there is none.
pub fn number_at(kind: Kind, bytes: &[u8], content: usize, place: usize) -> u64
    requires { content ≤ length bytes.now }
    ensures { result ≡ number_at (kind_meant kind) (line_at bytes.now content) place }
{
    if place < 4 {
        return 0;
    }
    number_here(
        form_at(kind, place - 1),
        bytes,
        past_fields(bytes, content, place - 4),
    )
}
