// An output without the zeros at its end: no byte of a holding is 0, so these are the new holding.
ghost use Rattle.std.specs.Prelude.{◌≡◌, ◌≤◌, length, take};
ghost use Rattle.printed.specs.Printed.{bare};

// How many bytes stand before them.
pub fn bare_length(s: &[u8]) -> usize
    ensures { (result ≤ length s.now) × (take result s.now ≡ bare s.now) }
{
    match s.iter().rposition(|b| *b != 0) {
        Some(last) => last + 1,
        None => 0,
    }
}
