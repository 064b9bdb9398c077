// Whether what a record refers to stands among the first `count` entries; naming itself counts as unmet.
ghost use Rattle.std.specs.Prelude.{◌≡◌, T};
ghost use Rattle.theory.specs.Refs.{meets};
ghost use Rattle.meaning.specs.Table.{scottish};
ghost use Rattle.meaning.specs.Records.{keyed, refs_of};
ghost use Rattle.laws.specs.Body.{fine};
ghost use Rattle.keys.specs.Numbers.{key_list, referred_as};
ghost use Rattle.entries.specs.Entries.{record_of};
ghost use Rattle.places.specs.Places.{says, met_by};
ghost use Rattle.places.specs.Ordered.{Ordered};

use crate::search::{place, stands};
use entries::references::{Named, is_same_key, references};
use keys::Key;

// Whether one reference of the record whose key is `own` is met.
fn is_met(
    holding: &[u8],
    file: &[u8],
    places: &[u64],
    tags: &[u64],
    count: usize,
    own: Key,
    to: Option<Key>,
) -> bool
    requires { Ordered holding.now file.now places.now tags.now count }
    ensures { result ≡ met_by (says holding.now file.now places.now count) (key_list own) (referred_as to) }
{
    let Some(key) = to else {
        return true;
    };
    if is_same_key(key, own) {
        return false;
    }
    let i = place(holding, file, places, tags, count, key);
    stands(holding, file, places, tags, count, i, key)
}

// Whether the references of an entry's record are met among the first `count` entries, which are those of sound records in key order.
pub fn meets(
    holding: &[u8],
    file: &[u8],
    places: &[u64],
    tags: &[u64],
    count: usize,
    entry: u64,
) -> bool
    requires { Ordered holding.now file.now places.now tags.now count × T (fine scottish (record_of holding.now file.now entry)) }
    ensures { result ≡ meets (keyed scottish) (refs_of scottish) (says holding.now file.now places.now count) (record_of holding.now file.now entry) }
{
    let Named { own, to } = references(holding, file, entry);
    for key in to {
        if !is_met(holding, file, places, tags, count, own, key) {
            return false;
        }
    }
    true
}
