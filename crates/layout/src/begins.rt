// Whether bytes begin a field that is sound as a row has it: whether they are sound with the end of one of the form's samples after them.
// Only the one field of a file that is malformed is asked so, so nothing here need be quick.
ghost use Rattle.std.specs.Prelude.{◌≡◌, ◌++◌, [], ◌∷◌, map, ◌+◌, ◌≤◌, length, replicate};
ghost use Rattle.std.specs.List.{list_any};
ghost use Rattle.base.specs.Lists.{bytes};
ghost use Rattle.text.specs.Front.{in_front};
ghost use Rattle.meaning.specs.Forms.{empty_of, quoted};
ghost use Rattle.meaning.specs.Place.{goes_on, sample_characters, samples};
ghost use Rattle.meaning.specs.Place.{begins as beginsWith};
ghost use Rattle.layout.specs.Rows.{form_decoded, sound_by};
ghost use Rattle.layout.specs.Longest.{longest, most_of_any};

use crate::rules::{form_of, sound_by};
use form::codes::{CHANGE_TYPES, FILE_TYPES};
use form::{Form, is_textual};
use text::put;

// The most bytes of a sound field of any form that a row of the table can say: two quotes and 255 characters of four bytes.
const MOST_OF_ANY: usize = 1022;

// The most bytes of a field that is sound as a row has it.
fn most_bytes(row: u32) -> usize
    ensures { result ≡ longest (form_decoded row) }
{
    match form_of(row) {
        Form::Number(width) | Form::AtLeast1(width) => width,
        Form::Decimal(width, decimals) => 2 + width + decimals,
        Form::Date => 10,
        Form::Time => 6,
        Form::Text(width) => 2 + 4 * width,
        Form::ChangeType | Form::FileType => 3,
        Form::XrefType => 1,
        Form::KeyText(_) => 16,
    }
}

// Two parts, one behind the other, in front of what is lent; and how long they are together.
fn put_both(out: &mut [u8], p: &[u8], e: &[u8]) -> usize
    requires { length p.now + length e.now ≤ length out.old }
    ensures { (result ≡ length (p.now ++ e.now)) × (out.new ≡ in_front (p.now ++ e.now) out.old) }
{
    let front = put::bytes(&mut *out, p);
    let back = put::bytes(&mut out[front..], e);
    front + back
}

// Whether two parts, one behind the other, are a sound field.
fn sound_together(row: u32, p: &[u8], e: &[u8]) -> bool
    requires { (length p.now ≤ most_of_any) × (length e.now ≤ most_of_any) }
    ensures { result ≡ sound_by row (p.now ++ e.now) }
{
    let mut whole = [0u8; 2 * MOST_OF_ANY];
    let end = put_both(&mut whole, p, e);
    sound_by(row, &whole[0..end])
}

// Whether bytes are sound with the end of a sample after them; an end that would make them too long is passed over.
fn goes_on(row: u32, p: &[u8], sample: &[u8]) -> bool
    requires { (length p.now ≤ longest (form_decoded row)) × (length sample.now ≤ most_of_any) }
    ensures { result ≡ goes_on (sound_by row) p.now sample.now }
{
    let over = (p.len() + sample.len()).saturating_sub(most_bytes(row));
    for i in over..sample.len() {
        if sound_together(row, p, &sample[i..]) {
            return true;
        }
    }
    sound_by(row, p)
}

// Whether bytes are sound with the end of one of the codes in quotes after them.
fn goes_on_quoted(row: u32, p: &[u8], codes: &[u8]) -> bool
    requires { length p.now ≤ longest (form_decoded row) }
    ensures { result ≡ list_any (λ code. goes_on (sound_by row) p.now (34 ∷ code ∷ 34 ∷ [])) codes.now }
{
    codes
        .iter()
        .any(|code| goes_on(row, p, &[b'"', *code, b'"']))
}

// Whether bytes are sound with the end of a number with a point after them: 0, a point and so many zeros.
fn goes_on_decimal(row: u32, p: &[u8], decimals: usize) -> bool
    requires { (length p.now ≤ longest (form_decoded row)) × (2 + decimals ≤ most_of_any) }
    ensures { result ≡ goes_on (sound_by row) p.now (bytes "0." ++ replicate decimals 48) }
{
    let mut zeros = [b'0'; MOST_OF_ANY];
    zeros[1] = b'.';
    goes_on(row, p, &zeros[..2 + decimals])
}

// Whether bytes are sound with the end of a text of one character after them: a, or U+0800, U+10000 or U+40000, which end a character that
// is begun.
fn goes_on_text(row: u32, p: &[u8]) -> bool
    requires { length p.now ≤ longest (form_decoded row) }
    ensures { result ≡ beginsWith (sound_by row) (map quoted sample_characters) p.now }
{
    goes_on(row, p, b"\"a\"")
        || goes_on(row, p, b"\"\xE0\xA0\x80\"")
        || goes_on(row, p, b"\"\xF0\x90\x80\x80\"")
        || goes_on(row, p, b"\"\xF1\x80\x80\x80\"")
}

// Whether bytes are sound with the end of a key with that letter after them.
fn goes_on_key(row: u32, p: &[u8], letter: u8) -> bool
    requires { length p.now ≤ longest (form_decoded row) }
    ensures { result ≡ goes_on (sound_by row) p.now (quoted (bytes "0000" ++ (letter ∷ bytes "000000000"))) }
{
    let mut sample = *b"\"0000.000000000\"";
    sample[5] = letter;
    goes_on(row, p, &sample)
}

// Whether bytes go on as a filled field of the row's form does.
fn begins_filled(row: u32, p: &[u8]) -> bool
    requires { length p.now ≤ longest (form_decoded row) }
    ensures { result ≡ beginsWith (sound_by row) (samples (form_decoded row)) p.now }
{
    match form_of(row) {
        Form::Number(_) | Form::AtLeast1(_) => goes_on(row, p, b"1"),
        Form::Decimal(_, decimals) => goes_on_decimal(row, p, decimals),
        Form::Date => goes_on(row, p, b"9999-11-11") || goes_on(row, p, b"9999-11-30"),
        Form::Time => goes_on(row, p, b"000000"),
        Form::Text(_) => goes_on_text(row, p),
        Form::ChangeType => goes_on_quoted(row, p, &CHANGE_TYPES),
        Form::XrefType => goes_on(row, p, b"1") || goes_on(row, p, b"2"),
        Form::FileType => goes_on_quoted(row, p, &FILE_TYPES),
        Form::KeyText(letter) => goes_on_key(row, p, letter),
    }
}

// Whether bytes go on as the empty field does: two quotes for text, no bytes for the rest.
fn begins_empty(row: u32, p: &[u8]) -> bool
    requires { length p.now ≤ longest (form_decoded row) }
    ensures { result ≡ goes_on (sound_by row) p.now (empty_of (form_decoded row)) }
{
    if is_textual(form_of(row)) {
        goes_on(row, p, b"\"\"")
    } else {
        sound_by(row, p)
    }
}

// Whether bytes begin a field that is sound as a row has it.
pub fn begins(row: u32, p: &[u8]) -> bool
    ensures { result ≡ beginsWith (sound_by row) (empty_of (form_decoded row) ∷ samples (form_decoded row)) p.now }
{
    p.len() <= most_bytes(row) && (begins_empty(row, p) || begins_filled(row, p))
}
