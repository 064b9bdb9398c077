// Numbers are compared as numbers, text byte by byte.
ghost use Rattle.std.specs.Prelude.{◌≡◌};
ghost use Rattle.base.specs.Lists.{same};
ghost use Rattle.theory.specs.Lex.{cmp_n, lex};
ghost use Rattle.text.specs.Order.{tri_of};

use std::cmp::Ordering;

// Two numbers.
pub fn numbers(x: u64, y: u64) -> Ordering
    ensures { tri_of result ≡ cmp_n x y }
{
    x.cmp(&y)
}

// Two texts, byte by byte; a shorter one stands before its extensions.
pub fn texts(a: &[u8], b: &[u8]) -> Ordering
    ensures { tri_of result ≡ lex a.now b.now }
{
    a.cmp(b)
}

// Whether two runs of bytes are the same.
pub fn is_same(a: &[u8], b: &[u8]) -> bool
    ensures { result ≡ same a.now b.now }
{
    a == b
}
