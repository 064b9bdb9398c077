#![tactic(auto)]

// A record's key as four numbers by value, so that keys are compared without reading text twice.
//
// A key is its kind's number and the numbers of at most three fields, 0 where there is none; a text's number is that of its digits.
// The places of those fields, and of the fields that refer to other records, are the table's: no function goes by a particular kind.
// Laws tie the order of these numbers to the order of keys that the meaning has, for records that are sound; every content has a key.
ghost use Rattle.std.specs.Prelude.{◌≡◌};
ghost use Rattle.theory.specs.Lex.{lex};
ghost use Rattle.text.specs.Order.{tri_of};
ghost use Rattle.keys.specs.Numbers.{key_list};

use std::cmp::Ordering;

pub mod numbers; // the number of a field

// A key: the number of its kind, and those of its fields. Keys stand in the order of these, one after another.
#[derive(Clone, Copy, Debug, PartialEq, Eq, PartialOrd, Ord)]
pub struct Key {
    pub kind: u64,
    pub first: u64,
    pub second: u64,
    pub third: u64,
}

// Two keys, number by number.
pub fn order(a: Key, b: Key) -> Ordering
    ensures { tri_of result ≡ lex (key_list a) (key_list b) }
{
    a.cmp(&b)
}
