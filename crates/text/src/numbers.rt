// The value of digits, and how many digits a number has.
ghost use Rattle.std.specs.Prelude.{◌≡◌, ◌≤◌, ◌-◌, length};
ghost use Rattle.theory.specs.Decimal.{value, width};

// The value of a digit; a byte that is none has one too, so that a value needs no test first.
pub fn digit(b: u8) -> u64
    ensures { (result ≡ b - 48) × (result ≤ 207) }
{
    u64::from(b.saturating_sub(b'0'))
}

// The value of at most 16 digits, the widest number of any kind.
pub fn value(f: &[u8]) -> u64
    requires { length f.now ≤ 16 }
    ensures { result ≡ value f.now }
{
    let mut v = 0;
    for &b in f {
        v = v * 10 + digit(b);
    }
    v
}

// How many digits a number has, written without leading zeros.
pub fn width(n: u64) -> usize
    ensures { (result ≡ width n) × (result ≤ 20) }
{
    n.max(1).ilog10() as usize + 1
}
