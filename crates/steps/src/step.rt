// One step of a file over the records in force.
ghost use Rattle.std.specs.Prelude.{◌≡◌, T};
ghost use Rattle.theory.specs.Step.{ins, upd, del};
ghost use Rattle.meaning.specs.Table.{scottish};
ghost use Rattle.laws.specs.Body.{fine};
ghost use Rattle.keys.specs.Numbers.{key_list, key_numbers};
ghost use Rattle.entries.specs.Entries.{record_of};
ghost use Rattle.places.specs.Changes.{change, change_at};
ghost use Rattle.judge.specs.Ready.{Ready};
ghost use Rattle.steps.specs.Steps.{Carries, Steps};

use answers::codes::Code;
use entries::key::line_key;
use entries::tags::entry_tag;
use judge::{Judged, State, judge_delete, judge_insert, judge_update};
use keys::Key;
use layout::kinds::HeldKind;
use layout::records::{AppXref, Blpu, Lpi, Street, StreetXref};
use places::counts::note;
use places::moves::{close, open};
use volume::lines::{Change, Line};

// The state after a step, and the entry that stood at its key, or the step's own where none did.
#[derive(Clone, Copy, Debug, PartialEq, Eq)]
pub struct Stepped {
    pub state: State,
    pub before: u64,
}

// An insert of an entry's record.
fn insert(
    holding: &[u8],
    file: &[u8],
    places: &mut [u64],
    tags: &mut [u64],
    counts: &mut [u16],
    entry: u64,
    key: Key,
    state: State,
    room: usize,
) -> Result<Stepped, Code>
    requires { Ready holding.now file.now places.old tags.old counts.old room state × T (fine scottish (record_of holding.now file.now entry)) × (key_list key ≡ key_numbers (record_of holding.now file.now entry)) }
    ensures { Steps holding.now file.now places.old places.new tags.new counts.new room (change ins (record_of holding.now file.now entry)) state result }
{
    let judged = judge_insert(holding, file, places, tags, entry, key, state, room)?;
    let Judged { place, size } = judged;
    let count = state.count;
    let next = count + 1;
    open(&mut *places, count, place, entry);
    open(&mut *tags, count, place, entry_tag(holding, file, entry));
    open(&mut *counts, count, place, 0);
    note(holding, file, places, tags, &mut *counts, next, entry, true);
    Ok(Stepped {
        state: State { count: next, size },
        before: entry,
    })
}

// An update to an entry's record.
fn update(
    holding: &[u8],
    file: &[u8],
    places: &mut [u64],
    tags: &[u64],
    counts: &mut [u16],
    entry: u64,
    key: Key,
    state: State,
    room: usize,
) -> Result<Stepped, Code>
    requires { Ready holding.now file.now places.old tags.now counts.old room state × T (fine scottish (record_of holding.now file.now entry)) × (key_list key ≡ key_numbers (record_of holding.now file.now entry)) }
    ensures { Steps holding.now file.now places.old places.new tags.now counts.new room (change upd (record_of holding.now file.now entry)) state result }
{
    let judged = judge_update(holding, file, places, tags, entry, key, state, room)?;
    let Judged { place, size } = judged;
    let count = state.count;
    let old = places[place];
    note(holding, file, places, tags, &mut *counts, count, old, false);
    places[place] = entry;
    note(
        holding,
        file,
        places,
        tags,
        &mut *counts,
        count,
        entry,
        true,
    );
    Ok(Stepped {
        state: State { count, size },
        before: old,
    })
}

// A delete at the key of an entry's record.
fn delete(
    holding: &[u8],
    file: &[u8],
    places: &mut [u64],
    tags: &mut [u64],
    counts: &mut [u16],
    entry: u64,
    key: Key,
    state: State,
    room: usize,
) -> Result<Stepped, Code>
    requires { Ready holding.now file.now places.old tags.old counts.old room state × T (fine scottish (record_of holding.now file.now entry)) × (key_list key ≡ key_numbers (record_of holding.now file.now entry)) }
    ensures { Steps holding.now file.now places.old places.new tags.new counts.new room (change del (record_of holding.now file.now entry)) state result }
{
    let judged = judge_delete(holding, file, places, tags, counts, entry, key, state, room)?;
    let Judged { place, size } = judged;
    let count = state.count;
    let gone = places[place];
    note(
        holding,
        file,
        places,
        tags,
        &mut *counts,
        count,
        gone,
        false,
    );
    close(&mut *places, count, place);
    close(&mut *tags, count, place);
    close(&mut *counts, count, place);
    Ok(Stepped {
        state: State {
            count: count - 1,
            size,
        },
        before: gone,
    })
}

// The step of the line that starts at `at` of the file: its record type's layout says its key, and its change what is done there.
pub fn step(
    holding: &[u8],
    file: &[u8],
    at: usize,
    line: Line,
    places: &mut [u64],
    tags: &mut [u64],
    counts: &mut [u16],
    state: State,
    room: usize,
) -> Result<Stepped, Code>
    requires { Ready holding.now file.now places.old tags.old counts.old room state × Carries file.now at line }
    ensures { Steps holding.now file.now places.old places.new tags.new counts.new room (change_at file.now at) state result }
{
    let Line { kind, change } = line;
    let entry = 2 * (at as u64) + 1;
    let key = match kind {
        HeldKind::Street => line_key(Street::LAYOUT, kind, file, at),
        HeldKind::StreetXref => line_key(StreetXref::LAYOUT, kind, file, at),
        HeldKind::Blpu => line_key(Blpu::LAYOUT, kind, file, at),
        HeldKind::AppXref => line_key(AppXref::LAYOUT, kind, file, at),
        HeldKind::Lpi => line_key(Lpi::LAYOUT, kind, file, at),
    };
    match change {
        Change::Insert => insert(holding, file, places, tags, counts, entry, key, state, room),
        Change::Update => update(holding, file, places, tags, counts, entry, key, state, room),
        Change::Delete => delete(holding, file, places, tags, counts, entry, key, state, room),
    }
}
