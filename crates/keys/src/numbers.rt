// The numbers by which keys compare fields: that of a text, and that of a number; and which of both a field is.
ghost use Rattle.std.specs.Prelude.{◌≡◌, take};
ghost use Rattle.theory.specs.Decimal.{value};
ghost use Rattle.form.specs.Meant.{meant};
ghost use Rattle.layout.specs.Meant.{kind_meant};
ghost use Rattle.layout.specs.Rows.{row_of};
ghost use Rattle.keys.specs.Numbers.{digits_in};

use form::Form;
use layout::kinds::Kind;
use layout::rules::{form_of, layout, row};
use text::numbers::{digit, value};

// The number of a text's digits round its letter, byte by byte.
fn digits_number(f: &[u8]) -> u64
    ensures { result ≡ value (digits_in f.now) }
{
    let mut v = 0;
    for i in 1..f.len().min(15) {
        if i != 5 {
            v = v * 10 + digit(f[i]);
        }
    }
    v
}

// The number of a key's text: its digits, without the letter. One of 16 bytes, as every sound one has, is read in two runs.
pub fn text_number(f: &[u8]) -> u64
    ensures { result ≡ value (digits_in f.now) }
{
    if f.len() == 16 {
        return value(&f[1..5]) * 1000000000 + value(&f[6..15]);
    }
    digits_number(f)
}

// The value of a number, or of its first 16 bytes.
pub fn plain_number(f: &[u8]) -> u64
    ensures { result ≡ value (take 16 f.now) }
{
    let end = f.len().min(16);
    value(&f[..end])
}

// The form of a kind's field, counted from 0; N 0 where there is none.
pub fn form_at(kind: Kind, k: usize) -> Form
    ensures { meant result ≡ (row_of (kind_meant kind) k).0 }
{
    if layout(kind).count <= k {
        return Form::Number(0);
    }
    form_of(row(kind, k))
}
