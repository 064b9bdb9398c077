#![tactic(auto, unfolding(meaning::specs::Forms::is_leap, meaning::specs::Forms::days_in, meaning::specs::Forms::is_day))]

// Dates CCYY-MM-DD, real Gregorian days from the year 1583 on, and times HHMMSS.
ghost use Rattle.std.specs.Prelude.{◌≡◌, ◌≤◌};
ghost use Rattle.meaning.specs.Forms.{is_leap, days_in, is_day, is_date, is_time};

use crate::is_digits;
use text::numbers::value;

// Whether a year has a 29 February.
pub fn is_leap(y: u64) -> bool
    ensures { result ≡ is_leap y }
{
    y % 4 == 0 && (y % 100 != 0 || y % 400 == 0)
}

// How many days a month has. Months of 31 and of 30 take turns, but for February; m / 8 is 1 from August on, which has 31 as July has.
fn days_in(y: u64, m: u64) -> u64
    requires { (1 ≤ m) × (m ≤ 12) }
    ensures { result ≡ days_in y m }
{
    match m {
        2 if is_leap(y) => 29,
        2 => 28,
        _ => 30 + (m + m / 8) % 2,
    }
}

// Whether a year, a month and a day are a real day.
pub fn is_day(y: u64, m: u64, d: u64) -> bool
    ensures { result ≡ is_day y m d }
{
    1583 <= y && 1 <= m && m <= 12 && 1 <= d && d <= days_in(y, m)
}

// Whether a field is a date.
pub fn is_date(f: &[u8]) -> bool
    ensures { result ≡ is_date f.now }
{
    f.len() == 10
        && is_digits(&f[0..4])
        && f[4] == b'-'
        && is_digits(&f[5..7])
        && f[7] == b'-'
        && is_digits(&f[8..10])
        && is_day(value(&f[0..4]), value(&f[5..7]), value(&f[8..10]))
}

// Whether a field is a time, 000000 to 235959.
pub fn is_time(f: &[u8]) -> bool
    ensures { result ≡ is_time f.now }
{
    f.len() == 6
        && is_digits(f)
        && value(&f[0..2]) <= 23
        && value(&f[2..4]) <= 59
        && value(&f[4..6]) <= 59
}
