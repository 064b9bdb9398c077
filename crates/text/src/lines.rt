// A line runs up to the next CR LF; bytes left after the last CR LF are a line with no ending.
ghost use Rattle.std.specs.Prelude.{◌≡◌, ◌≤◌, length, drop};
ghost use Rattle.meaning.specs.Lines.{plain};
ghost use Rattle.text.specs.Places.{ends_here, line_end, plain_end};

// Whether a CR LF stands at i.
pub fn ends_at(s: &[u8], i: usize) -> bool
    ensures { result ≡ ends_here (drop i s.now) }
{
    matches!(s.get(i..), Some([b'\r', b'\n', ..]))
}

// Where the line that starts at `at` ends: at the next CR LF, or where the bytes do.
pub fn line_end(s: &[u8], at: usize) -> usize
    requires { at ≤ length s.now }
    ensures { (result ≡ line_end s.now at) × (at ≤ result) × (result ≤ length s.now) }
{
    for (i, &b) in s[at..].iter().enumerate() {
        if b == b'\r' && ends_at(s, at + i) {
            return at + i;
        }
    }
    s.len()
}

// Whether a byte is neither CR nor LF.
#[tactic(auto, unfolding(meaning::specs::Lines::plain))]
pub fn is_plain_byte(b: u8) -> bool
    ensures { result ≡ plain b }
{
    b'\r' < b || !matches!(b, b'\r' | b'\n')
}

// Where the first CR or LF at or after `at` stands, or where the bytes end.
pub fn plain_end(s: &[u8], at: usize) -> usize
    requires { at ≤ length s.now }
    ensures { (result ≡ plain_end s.now at) × (at ≤ result) × (result ≤ length s.now) }
{
    for (i, &b) in s[at..].iter().enumerate() {
        if !is_plain_byte(b) {
            return at + i;
        }
    }
    s.len()
}
