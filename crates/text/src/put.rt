// Writers: each writes into the front of what it is lent, leaves the rest as it was, and gives the number of bytes written.
ghost use Rattle.std.specs.Prelude.{◌≡◌, ◌≤◌, length};
ghost use Rattle.base.specs.Lists.{zeros};
ghost use Rattle.theory.specs.Decimal.{dec, width};
ghost use Rattle.text.specs.Front.{in_front};

use crate::numbers::width;

// Bytes as they are.
#[tactic(auto, using(crate::proofs::PutLaws::copying))]
pub fn bytes(out: &mut [u8], s: &[u8]) -> usize
    requires { length s.now ≤ length out.old }
    ensures { (result ≡ length s.now) × (out.new ≡ in_front s.now out.old) }
{
    for i in 0..s.len() {
        out[i] = s[i];
    }
    s.len()
}

// A number in decimal, without leading zeros.
pub fn number(out: &mut [u8], n: u64) -> usize
    requires { width n ≤ length out.old }
    ensures { (result ≡ width n) × (out.new ≡ in_front (dec n) out.old) }
{
    let digits = width(n);
    let mut left = n;
    for i in (0..digits).rev() {
        out[i] = b'0' + (left % 10) as u8;
        left /= 10;
    }
    digits
}

// Zeros to the end.
pub fn zeros(out: &mut [u8])
    ensures { out.new ≡ zeros (length out.old) }
{
    out.fill(0);
}
