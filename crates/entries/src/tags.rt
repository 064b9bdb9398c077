// A number for each key, whose order agrees with the order of keys: where two differ, and mostly where they don't, no line need be read.
ghost use Rattle.std.specs.Prelude.{◌≡◌, ◌≤◌};
ghost use Rattle.keys.specs.Numbers.{key_list, key_numbers};
ghost use Rattle.entries.specs.Entries.{record_of};
ghost use Rattle.entries.specs.Tags.{looseness, tag_of};

use crate::key::entry_key;
use keys::Key;

// The tags of one kind.
const SPAN: u64 = 72057594037927936;

// The first numbers that are told apart, more than there are of 16 digits.
const FIRSTS: u64 = 36028797018963967;

// The kinds that are told apart; those of the table have two digits.
const KINDS: u64 = 255;

// The tag of no key: even, and above those of all keys that have an even one.
pub const NO_TAG: u64 = u64::MAX - 1;

// 0 where a key's second and third number are both 0, so that its first two are all of it.
fn looseness(second: u64, third: u64) -> u64
    ensures { (result ≡ looseness second third) × (result ≤ 1) }
{
    u64::from(second != 0 || third != 0)
}

// A key's tag: its kind's number times the span, and twice its first number, with one more where other keys have the same two. What is
// beyond has the highest tag of its kind, or of all. So an even tag is of one key only.
pub fn tag(key: Key) -> u64
    ensures { result ≡ tag_of (key_list key) }
{
    if KINDS <= key.kind {
        return u64::MAX;
    }
    if FIRSTS <= key.first {
        return key.kind * SPAN + (SPAN - 1);
    }
    key.kind * SPAN + (2 * key.first + looseness(key.second, key.third))
}

// The tag of an entry's record.
pub fn entry_tag(holding: &[u8], file: &[u8], entry: u64) -> u64
    ensures { result ≡ tag_of (key_numbers (record_of holding.now file.now entry)) }
{
    tag(entry_key(holding, file, entry))
}
