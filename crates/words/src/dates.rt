// A date read as one number: a real day from the year 1600 on.
ghost use Rattle.std.specs.Prelude.{◌≡◌, true, ◌+◌, ◌≤◌, IfSome, length, take, drop};
ghost use Rattle.meaning.specs.Forms.{is_date};
ghost use Rattle.words.specs.Words.{Century};

use crate::word::{marked, word_at};
use number::calendar::is_day;

// The number of two digits, where it is 16 or more.
fn century(a: u8, b: u8) -> Option<u64>
    ensures { IfSome result (λ h. (h ≤ 99) × Century a b h) }
{
    let (b'0'..=b'9', b'0'..=b'9') = (a, b) else {
        return None;
    };
    let hundreds = (u64::from(a) - 48) * 10 + (u64::from(b) - 48);
    (16 <= hundreds).then_some(hundreds)
}

// Whether each month has the day.
fn is_of_each_month(day: u64) -> bool
    ensures { result ≡ true → (1 ≤ day) × (day ≤ 28) }
{
    matches!(day, 1..=28)
}

// Whether the ten bytes from `at` on are seen to be a date; one before 1600 is not seen. No byte is read by itself but the first two, so
// the other eight are one load.
pub fn is_usual_date(s: &[u8], at: usize) -> bool
    requires { at + 10 ≤ length s.now }
    ensures { result ≡ true → is_date (take 10 (drop at s.now)) ≡ true }
{
    let Some(hundreds) = century(s[at], s[at + 1]) else {
        return false;
    };
    let w = word_at(s, at + 2);
    let unlike = marked(w, 0x30302D30302D3030, 0x76767F76767F7676);
    if unlike != 0 {
        return false;
    }
    let x = w ^ 0x30302D30302D3030;
    let pairs = x * 10 + x / 256;
    let month = pairs / 0x1000000 % 256;
    let day = pairs / 0x1000000000000 % 256;
    matches!(month, 1..=12)
        && (is_of_each_month(day) || is_day(hundreds * 100 + pairs % 256, month, day))
}
