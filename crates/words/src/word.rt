// Eight bytes as one number.
ghost use Rattle.std.specs.Prelude.{◌≡◌, ◌+◌, ◌≤◌, T, length, take, drop};
ghost use Rattle.base.specs.Lists.{all};
ghost use Rattle.words.specs.Words.{word, is_byte, marks};

// The eight bytes from `at` on, the first the lowest: one load.
pub fn word_at(s: &[u8], at: usize) -> u64
    requires { at + 8 ≤ length s.now }
    ensures { (result ≡ word (take 8 (drop at s.now))) × T (all is_byte (take 8 (drop at s.now))) }
{
    u64::from_le_bytes([
        s[at],
        s[at + 1],
        s[at + 2],
        s[at + 3],
        s[at + 4],
        s[at + 5],
        s[at + 6],
        s[at + 7],
    ])
}

// A mark in each byte of w that is not `like` or, where `over` is less than 127, a little more.
pub fn marked(w: u64, like: u64, over: u64) -> u64
    requires { over ≤ 0x8080808080808080 }
    ensures { result ≡ marks 8 w like over }
{
    let x = w ^ like;
    (((x & 0x7F7F7F7F7F7F7F7F) + over) | x) & 0x8080808080808080
}
