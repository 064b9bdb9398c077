#![tactic(auto, unfolding(meaning::specs::Characters::is_in))]

// The characters of well-formed UTF-8, by RFC 3629's table of byte sequences.
ghost use Rattle.std.specs.Prelude.{◌≡◌, ◌≤◌, length};
ghost use Rattle.base.specs.Lists.{all};
ghost use Rattle.meaning.specs.Characters.{is_in, tail, characters, follows};
ghost use Rattle.meaning.specs.Forms.{by_characters};
ghost use Rattle.form.specs.Characters.{in_first, character_length};

use crate::texts::is_text_byte;

// How many bytes follow a first byte in its row of the table; none follow ASCII, nor a byte that begins no row.
#[tactic(auto, using(crate::proofs::FirstByteLaws::tailing))]
fn tails(first: u8) -> usize
    ensures { result ≡ length (follows characters first) }
{
    match first {
        0xC2..=0xDF => 1,
        0xE0..=0xEF => 2,
        0xF0..=0xF4 => 3,
        _ => 0,
    }
}

// Whether a byte is 0x80 to 0xBF.
fn is_tail(b: u8) -> bool
    ensures { result ≡ is_in tail b }
{
    matches!(b, 0x80..=0xBF)
}

// Whether a byte may come second, after a first byte that wants more: a tail, and neither a form that is overlong (E0, F0) nor a
// surrogate (ED) nor more than U+10FFFF (F4).
#[tactic(auto, using(crate::proofs::FirstByteLaws::second))]
fn may_follow(first: u8, second: u8) -> bool
    requires { 1 ≤ length (follows characters first) }
    ensures { result ≡ in_first (follows characters first) second }
{
    match first {
        0xE0 => matches!(second, 0xA0..=0xBF),
        0xED => matches!(second, 0x80..=0x9F),
        0xF0 => matches!(second, 0x90..=0xBF),
        0xF4 => matches!(second, 0x80..=0x8F),
        _ => is_tail(second),
    }
}

// Whether each byte is a tail.
fn are_tails(t: &[u8]) -> bool
    ensures { result ≡ all (is_in tail) t.now }
{
    t.iter().all(|&b| is_tail(b))
}

// How many bytes the character has that bytes begin with; `None` where they begin with none that may stand in a text.
fn character_length(t: &[u8]) -> Option<usize>
    ensures { result ≡ character_length t.now }
{
    let first = *t.first()?;
    if first < 0x80 {
        return is_text_byte(first).then_some(1);
    }
    let n = tails(first);
    if 0 < n && n < t.len() && may_follow(first, t[1]) && are_tails(&t[2..=n]) {
        Some(n + 1)
    } else {
        None
    }
}

// Whether bytes may stand between the quotes of a text of width w: at most so many characters, each whole.
#[tactic(auto, using(crate::proofs::CharacterLaws::counting))]
pub fn are_characters(t: &[u8], w: usize) -> bool
    ensures { result ≡ by_characters w t.now }
{
    let mut rest = t;
    let mut left = w;
    while let Some(n) = character_length(rest) {
        if left == 0 {
            return false;
        }
        left -= 1;
        rest = &rest[n..];
    }
    rest.is_empty()
}
