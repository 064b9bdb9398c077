#![tactic(auto, unfolding(meaning::specs::Forms::is_digit, meaning::specs::Forms::is_digits, meaning::specs::Forms::is_number))]

// The forms that are made of digits, as paper 01's 'Lines and fields' has them: numbers here, dates and times in `calendar`.
//
// N w: 1 to w digits, leading zeros allowed and counted. N w.d: an optional minus, 1 to w digits, a point, d digits.
ghost use Rattle.std.specs.Prelude.{◌≡◌, ◌&&◌, ◌≤◌, leb, length};
ghost use Rattle.base.specs.Lists.{all, up_to, past};
ghost use Rattle.theory.specs.Decimal.{value};
ghost use Rattle.meaning.specs.Forms.{is_digit, is_number, is_digits, is_decimal};

pub mod calendar; // dates and times

// Whether a byte is one of 0 to 9.
pub fn is_digit(b: u8) -> bool
    ensures { result ≡ is_digit b }
{
    b.is_ascii_digit()
}

// Whether each byte is a digit.
pub fn is_digits(f: &[u8]) -> bool
    ensures { result ≡ all is_digit f.now }
{
    for &b in f {
        if !is_digit(b) {
            return false;
        }
    }
    true
}

// Whether a field is just so many digits.
pub fn has_digits(f: &[u8], n: usize) -> bool
    ensures { result ≡ is_digits n f.now }
{
    f.len() == n && is_digits(f)
}

// Whether a field is 1 to w digits.
pub fn is_number(f: &[u8], w: usize) -> bool
    ensures { result ≡ is_number w f.now }
{
    1 <= f.len() && f.len() <= w && is_digits(f)
}

// Whether digits, however many, are worth 1 or more: one of them is above 0.
pub fn is_worth_1(f: &[u8]) -> bool
    ensures { result ≡ leb 1 (value f.now) }
{
    f.iter().any(|&b| b'0' < b)
}

// Whether a field is 1 to w digits that are not all 0.
pub fn is_at_least_1(f: &[u8], w: usize) -> bool
    ensures { result ≡ (is_number w f.now && leb 1 (value f.now)) }
{
    is_number(f, w) && is_worth_1(f)
}

// How many bytes stand before the first point, or in all where there is none.
pub fn point_at(g: &[u8]) -> usize
    ensures { (result ≡ length (up_to 46 g.now)) × (result ≤ length g.now) }
{
    g.iter().position(|&b| b == b'.').unwrap_or(g.len())
}

// Whether a field with no minus is 1 to w digits, a point and d digits.
pub fn is_pointed(g: &[u8], w: usize, d: usize) -> bool
    ensures { result ≡ (is_number w (up_to 46 g.now) && is_digits d (past 46 g.now)) }
{
    let p = point_at(g);
    let after = g.get(p + 1..).unwrap_or(b"");
    is_number(&g[..p], w) && has_digits(after, d)
}

// Whether a field is an optional minus, 1 to w digits, a point and d digits.
pub fn is_decimal(f: &[u8], w: usize, d: usize) -> bool
    ensures { result ≡ is_decimal w d f.now }
{
    is_pointed(f.strip_prefix(b"-").unwrap_or(f), w, d)
}
