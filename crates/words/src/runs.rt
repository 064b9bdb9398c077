// Runs of bytes of one class, eight at a time.
ghost use Rattle.std.specs.Prelude.{◌≡◌, ◌+◌, ◌/◌, ◌≤◌, ◌<◌, T, MatchOption, length, take, drop};
ghost use Rattle.std.specs.Int.Count.{count_trailing_zeros};
ghost use Rattle.base.specs.Lists.{all};
ghost use Rattle.meaning.specs.Forms.{is_digit};
ghost use Rattle.form.specs.Characters.{is_ascii_text};
ghost use Rattle.words.specs.Words.{run, ascii_marks, upto};

use crate::word::{marked, word_at};

// Which byte has the lowest mark, if one has a mark.
fn lowest(m: u64) -> Option<usize>
    ensures { MatchOption result (m ≡ 0) (λ n. (n ≡ count_trailing_zeros 64 m / 8) × (n < 8)) }
{
    if m == 0 {
        return None;
    }
    Some(m.trailing_zeros() as usize / 8)
}

// A mark in each of the eight bytes from `at` on that is no digit.
fn digit_marks(s: &[u8], at: usize) -> u64
    requires { at + 8 ≤ length s.now }
    ensures { count_trailing_zeros 64 result / 8 ≡ run is_digit (take 8 (drop at s.now)) }
{
    marked(word_at(s, at), 0x3030303030303030, 0x7676767676767676)
}

// Past the digits from `at` on, up to sixteen of them: no number of the table is wider.
pub fn past_digits(s: &[u8], at: usize) -> usize
    requires { at + 16 ≤ length s.now }
    ensures { (at ≤ result) × (result ≤ at + 16) × T (all is_digit (upto s.now at result)) }
{
    for k in 0..2 {
        let next = at + 8 * k;
        if let Some(n) = lowest(digit_marks(s, next)) {
            return next + n;
        }
    }
    at + 16
}

// A mark in each byte of w that is no text's byte of ASCII.
fn unlike_ascii(w: u64) -> u64
    ensures { result ≡ ascii_marks 8 w }
{
    let y = w & 0x7F7F7F7F7F7F7F7F;
    ((((y ^ 0x0202020202020202) + 0x5F5F5F5F5F5F5F5F) ^ 0xFFFFFFFFFFFFFFFF)
        | (y + 0x0101010101010101)
        | w)
        & 0x8080808080808080
}

// A mark in each of the eight bytes from `at` on that is no text's byte of ASCII.
fn ascii_marks(s: &[u8], at: usize) -> u64
    requires { at + 8 ≤ length s.now }
    ensures { count_trailing_zeros 64 result / 8 ≡ run is_ascii_text (take 8 (drop at s.now)) }
{
    unlike_ascii(word_at(s, at))
}

// Past the bytes of a text from `at` on that are ASCII, or past some of them where the bytes end.
pub fn past_ascii(s: &[u8], at: usize) -> usize
    requires { at ≤ length s.now }
    ensures { (at ≤ result) × (result ≤ length s.now) × T (all is_ascii_text (upto s.now at result)) }
{
    let mut i = at;
    while 8 <= s.len() - i {
        if let Some(n) = lowest(ascii_marks(s, i)) {
            return i + n;
        }
        i += 8;
    }
    i
}
