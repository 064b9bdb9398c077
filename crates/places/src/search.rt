// Where a key stands among entries in key order.
ghost use Rattle.std.specs.Prelude.{◌≡◌, ◌≤◌};
ghost use Rattle.base.specs.Lists.{some?};
ghost use Rattle.theory.specs.Store.{get};
ghost use Rattle.theory.specs.Rank.{rank};
ghost use Rattle.theory.specs.Lex.{lex};
ghost use Rattle.text.specs.Order.{tri_of};
ghost use Rattle.keys.specs.Numbers.{key_list, key_numbers, numbered};
ghost use Rattle.entries.specs.Entries.{record_of};
ghost use Rattle.entries.specs.Tags.{tag_of, key_tagged, no_tag, Tells};
ghost use Rattle.places.specs.Places.{says};
ghost use Rattle.places.specs.Ordered.{Ordered};

use entries::key::against;
use entries::tags::tag;
use keys::Key;
use std::cmp::Ordering;

// How a key stands to that of an entry: as their tags do, and only where both have a tag that is not of one key alone is the line read.
fn by_tags(holding: &[u8], file: &[u8], entry: u64, its: u64, ours: u64, key: Key) -> Ordering
    requires { (its ≡ tag_of (key_numbers (record_of holding.now file.now entry))) × (ours ≡ tag_of (key_list key)) }
    ensures { tri_of result ≡ lex (key_list key) (key_numbers (record_of holding.now file.now entry)) }
{
    if ours < its {
        return Ordering::Less;
    }
    if its < ours {
        return Ordering::Greater;
    }
    if ours % 2 == 0 {
        return Ordering::Equal;
    }
    against(holding, file, entry, key)
}

// Where a key stands among the first `count` entries, or would stand: a search by halves.
pub fn place(
    holding: &[u8],
    file: &[u8],
    places: &[u64],
    tags: &[u64],
    count: usize,
    key: Key,
) -> usize
    requires { Ordered holding.now file.now places.now tags.now count }
    ensures { (result ≡ rank numbered (key_list key) (says holding.now file.now places.now count)) × (result ≤ count) }
{
    let ours = tag(key);
    let mut low = 0;
    let mut high = count;
    while low < high {
        let mid = low + (high - low) / 2;
        if by_tags(holding, file, places[mid], tags[mid], ours, key).is_gt() {
            low = mid + 1;
        } else {
            high = mid;
        }
    }
    low
}

// Whether a key stands at its place i.
pub fn stands(
    holding: &[u8],
    file: &[u8],
    places: &[u64],
    tags: &[u64],
    count: usize,
    i: usize,
    key: Key,
) -> bool
    requires { Ordered holding.now file.now places.now tags.now count × (i ≡ rank numbered (key_list key) (says holding.now file.now places.now count)) }
    ensures { result ≡ some? (get numbered (key_list key) (says holding.now file.now places.now count)) }
{
    i < count && by_tags(holding, file, places[i], tags[i], tag(key), key).is_eq()
}

// Where the key of an even tag stands among the first `count` entries, or would stand: tags alone tell.
pub fn place_tagged(
    holding: &[u8],
    file: &[u8],
    places: &[u64],
    tags: &[u64],
    count: usize,
    ours: u64,
) -> usize
    requires { Ordered holding.now file.now places.now tags.now count × Tells ours × (ours ≡ no_tag → ⊥) }
    ensures { (result ≡ rank numbered (key_list (key_tagged ours)) (says holding.now file.now places.now count)) × (result ≤ count) }
{
    let mut low = 0;
    let mut high = count;
    while low < high {
        let mid = low + (high - low) / 2;
        if tags[mid] < ours {
            low = mid + 1;
        } else {
            high = mid;
        }
    }
    low
}

// Whether that key stands at its place i.
pub fn stands_tagged(
    holding: &[u8],
    file: &[u8],
    places: &[u64],
    tags: &[u64],
    count: usize,
    i: usize,
    ours: u64,
) -> bool
    requires { Ordered holding.now file.now places.now tags.now count × Tells ours × (ours ≡ no_tag → ⊥) × (i ≡ rank numbered (key_list (key_tagged ours)) (says holding.now file.now places.now count)) }
    ensures { result ≡ some? (get numbered (key_list (key_tagged ours)) (says holding.now file.now places.now count)) }
{
    i < count && tags[i] == ours
}
