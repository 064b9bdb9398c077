#![tactic(auto)]

// How a step is judged, before it is made: the code with which it is refused, by what it touches alone: 10 or 11, then 16, 12 and 13.
ghost use Rattle.std.specs.Prelude.{◌≡◌, T};
ghost use Rattle.theory.specs.Step.{ins, upd, del};
ghost use Rattle.meaning.specs.Table.{scottish};
ghost use Rattle.laws.specs.Body.{fine};
ghost use Rattle.keys.specs.Numbers.{key_list, key_numbers};
ghost use Rattle.entries.specs.Entries.{record_of};
ghost use Rattle.places.specs.Ordered.{Ordered};
ghost use Rattle.places.specs.Changes.{change};
ghost use Rattle.judge.specs.Ready.{Holds, Ready, Finds, Judges};

use answers::codes::Code;
use entries::lengths::entry_length;
use keys::Key;
use layout::limits::Holding;
use places::met::meets;
use places::search::{place, stands};
use text::numbers::width;

// The bytes of a record's line round its number and content: identifier, CHANGE_TYPE, three commas, CR and LF.
const AROUND: usize = 10;

// The records in force, and the bytes of the holding as written.
#[derive(Clone, Copy, Debug, PartialEq, Eq)]
pub struct State {
    pub count: usize,
    pub size: usize,
}

// Where the key of a step stands or would stand, and the bytes after the step.
#[derive(Clone, Copy, Debug, PartialEq, Eq)]
pub struct Judged {
    pub place: usize,
    pub size: usize,
}

// Why a step is refused, and where its key stands or would stand.
#[derive(Clone, Copy, Debug, PartialEq, Eq)]
pub struct Refused {
    pub code: Code,
    pub place: usize,
}

impl From<Refused> for Code {
    ghost from_gives = { λ refused code. code ≡ refused.code };

    fn from(refused: Refused) -> Code {
        refused.code
    }
}

// A code with the place of the key.
fn refuse(code: Code, place: usize) -> Refused
    ensures { result ≡ record { code = code; place = place } }
{
    Refused { code, place }
}

// Where a key stands among the first `count` entries, or where it would.
pub fn find(
    holding: &[u8],
    file: &[u8],
    places: &[u64],
    tags: &[u64],
    count: usize,
    key: Key,
) -> Result<usize, usize>
    requires { Ordered holding.now file.now places.now tags.now count }
    ensures { Finds holding.now file.now places.now (key_list key) count result }
{
    let i = place(holding, file, places, tags, count, key);
    if stands(holding, file, places, tags, count, i, key) {
        Ok(i)
    } else {
        Err(i)
    }
}

// An insert of an entry's record, whose key is given.
pub fn judge_insert(
    holding: &[u8],
    file: &[u8],
    places: &[u64],
    tags: &[u64],
    entry: u64,
    key: Key,
    state: State,
    room: usize,
) -> Result<Judged, Refused>
    requires { Holds holding.now file.now places.now tags.now room state × T (fine scottish (record_of holding.now file.now entry)) × (key_list key ≡ key_numbers (record_of holding.now file.now entry)) }
    ensures { Judges holding.now file.now places.now room (change ins (record_of holding.now file.now entry)) state result }
{
    let State { count, size } = state;
    let place = match find(holding, file, places, tags, count, key) {
        Err(place) => place,
        Ok(place) => return Err(refuse(Code::KeyHeld, place)),
    };
    if Holding::most_lines() <= count {
        return Err(refuse(Code::TooManyRecords, place));
    }
    let met = meets(holding, file, places, tags, count, entry);
    if !met {
        return Err(refuse(Code::ReferenceUnmet, place));
    }
    let added = entry_length(holding, file, entry) + AROUND + width((count + 1) as u64);
    if room - size < added {
        return Err(refuse(Code::HoldingTooLong, place));
    }
    Ok(Judged {
        place,
        size: size + added,
    })
}

// An update to an entry's record, whose key is given.
pub fn judge_update(
    holding: &[u8],
    file: &[u8],
    places: &[u64],
    tags: &[u64],
    entry: u64,
    key: Key,
    state: State,
    room: usize,
) -> Result<Judged, Refused>
    requires { Holds holding.now file.now places.now tags.now room state × T (fine scottish (record_of holding.now file.now entry)) × (key_list key ≡ key_numbers (record_of holding.now file.now entry)) }
    ensures { Judges holding.now file.now places.now room (change upd (record_of holding.now file.now entry)) state result }
{
    let State { count, size } = state;
    let place = match find(holding, file, places, tags, count, key) {
        Ok(place) => place,
        Err(place) => return Err(refuse(Code::KeyAbsent, place)),
    };
    if !meets(holding, file, places, tags, count, entry) {
        return Err(refuse(Code::ReferenceUnmet, place));
    }
    let rest = size - entry_length(holding, file, places[place]);
    let new = entry_length(holding, file, entry);
    if room - rest < new {
        return Err(refuse(Code::HoldingTooLong, place));
    }
    Ok(Judged {
        place,
        size: rest + new,
    })
}

// A delete at the key of an entry's record.
pub fn judge_delete(
    holding: &[u8],
    file: &[u8],
    places: &[u64],
    tags: &[u64],
    counts: &[u16],
    entry: u64,
    key: Key,
    state: State,
    room: usize,
) -> Result<Judged, Refused>
    requires { Ready holding.now file.now places.now tags.now counts.now room state × T (fine scottish (record_of holding.now file.now entry)) × (key_list key ≡ key_numbers (record_of holding.now file.now entry)) }
    ensures { Judges holding.now file.now places.now room (change del (record_of holding.now file.now entry)) state result }
{
    let State { count, size } = state;
    let place = match find(holding, file, places, tags, count, key) {
        Ok(place) => place,
        Err(place) => return Err(refuse(Code::KeyAbsent, place)),
    };
    if counts[place] != 0 {
        return Err(refuse(Code::ReferenceUnmet, place));
    }
    let gone = entry_length(holding, file, places[place]) + AROUND + width(count as u64);
    Ok(Judged {
        place,
        size: size - gone,
    })
}
