// How often the records in force refer to each of them: counts beside the entries, so that a delete need look at one number only.
ghost use Rattle.std.specs.Prelude.{◌≡◌, true, [], ◌≤◌, ◌%◌, length, get_or, take};
ghost use Rattle.base.specs.Lists.{zeros};
ghost use Rattle.theory.specs.Store.{cons?};
ghost use Rattle.keys.specs.Numbers.{key_list, key_numbers, referred_as, ref_numbers};
ghost use Rattle.entries.specs.Entries.{record_of};
ghost use Rattle.entries.specs.Tags.{tag_of, ref_tagged, Tells, TagsOf};
ghost use Rattle.places.specs.Places.{says};
ghost use Rattle.places.specs.Counts.{moved, Movable, Open, NotesOne, Notes};
ghost use Rattle.places.specs.Ordered.{Ordered};

use crate::search::{place, place_tagged, stands, stands_tagged};
use entries::references::{Named, is_same_key, references};
use entries::tags::NO_TAG;
use keys::Key;

// The first `count` counts, of nothing.
pub fn clear(counts: &mut [u16], count: usize)
    requires { count ≤ length counts.old }
    ensures { take count counts.new ≡ zeros count }
{
    counts[..count].fill(0);
}

// A count one up, or one down.
fn moved(count: u16, up: bool) -> u16
    requires { Movable up count }
    ensures { result ≡ moved up 1 count }
{
    if up { count + 1 } else { count - 1 }
}

// Whether one reference of the record whose key is `own` is met, and if so counts it in (up) or out.
fn note_one(
    holding: &[u8],
    file: &[u8],
    places: &[u64],
    tags: &[u64],
    counts: &mut [u16],
    count: usize,
    own: Key,
    to: Option<Key>,
    up: bool,
) -> bool
    requires { Ordered holding.now file.now places.now tags.now count × (count ≤ length counts.old) × Open up (says holding.now file.now places.now count) counts.old (cons? (referred_as to) []) }
    ensures { NotesOne up (says holding.now file.now places.now count) (key_list own) (referred_as to) counts.old counts.new result }
{
    let Some(key) = to else {
        return true;
    };
    if is_same_key(key, own) {
        return false;
    }
    let i = place(holding, file, places, tags, count, key);
    if !stands(holding, file, places, tags, count, i, key) {
        return false;
    }
    let old = counts[i];
    counts[i] = moved(old, up);
    true
}

// Whether the references of an entry's record are met, and if so counts them in (up) or out.
pub fn note(
    holding: &[u8],
    file: &[u8],
    places: &[u64],
    tags: &[u64],
    counts: &mut [u16],
    count: usize,
    entry: u64,
    up: bool,
) -> bool
    requires { Ordered holding.now file.now places.now tags.now count × (count ≤ length counts.old) × Open up (says holding.now file.now places.now count) counts.old (ref_numbers (record_of holding.now file.now entry)) }
    ensures { Notes up (says holding.now file.now places.now count) (record_of holding.now file.now entry) counts.old counts.new result }
{
    let Named { own, to } = references(holding, file, entry);
    for key in to {
        if !note_one(
            holding,
            file,
            places,
            tags,
            &mut *counts,
            count,
            own,
            key,
            up,
        ) {
            return false;
        }
    }
    true
}

// Whether what an even tag says is referred to is met, by the record of an entry whose own tag is given, and if so counts it in.
fn note_tagged(
    holding: &[u8],
    file: &[u8],
    places: &[u64],
    tags: &[u64],
    counts: &mut [u16],
    count: usize,
    entry: u64,
    own: u64,
    to: u64,
) -> bool
    requires { Ordered holding.now file.now places.now tags.now count × (count ≤ length counts.old) × Open true (says holding.now file.now places.now count) counts.old (cons? (referred_as (ref_tagged to)) []) × (own ≡ tag_of (key_numbers (record_of holding.now file.now entry))) × Tells to }
    ensures { NotesOne true (says holding.now file.now places.now count) (key_numbers (record_of holding.now file.now entry)) (referred_as (ref_tagged to)) counts.old counts.new result }
{
    if to == NO_TAG {
        return true;
    }
    if to == own {
        return false;
    }
    let i = place_tagged(holding, file, places, tags, count, to);
    if !stands_tagged(holding, file, places, tags, count, i, to) {
        return false;
    }
    let old = counts[i];
    counts[i] = moved(old, true);
    true
}

// Whether the references of an entry's record are met, by its own tag and by theirs, which are even; and if so counts them in.
pub fn note_tags(
    holding: &[u8],
    file: &[u8],
    places: &[u64],
    tags: &[u64],
    counts: &mut [u16],
    count: usize,
    entry: u64,
    own: u64,
    to: [u64; 2],
) -> bool
    requires { Ordered holding.now file.now places.now tags.now count × (count ≤ length counts.old) × Open true (says holding.now file.now places.now count) counts.old (ref_numbers (record_of holding.now file.now entry)) × TagsOf (record_of holding.now file.now entry) own (get_or to 0 0) (get_or to 1 0) × (get_or to 0 0 % 2 ≡ 0) × (get_or to 1 0 % 2 ≡ 0) }
    ensures { Notes true (says holding.now file.now places.now count) (record_of holding.now file.now entry) counts.old counts.new result }
{
    for tag in to {
        if !note_tagged(
            holding,
            file,
            places,
            tags,
            &mut *counts,
            count,
            entry,
            own,
            tag,
        ) {
            return false;
        }
    }
    true
}
