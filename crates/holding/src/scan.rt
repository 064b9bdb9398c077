// All lines of a holding, one after another: form, order, PRO_ORDER and number of lines.
//
// A line is passed in one walk, and the ends of its fields are noted, so that its key is read where it stands. One that isn't passed is
// judged by itself.
ghost use Rattle.std.specs.Prelude.{◌≡◌, ◌≤◌, length};
ghost use Rattle.std.proofs.Math.Option.{none};
ghost use Rattle.meaning.specs.Lines.{lines_of};
ghost use Rattle.meaning.specs.Table.{scottish};
ghost use Rattle.meaning.specs.Holding.{scan, most_records};
ghost use Rattle.keys.specs.Numbers.{key_list};
ghost use Rattle.holding.specs.Held.{after_key, NextIs};
ghost use Rattle.holding.specs.Read.{ReadAs};

use crate::held::{held_line, passes_noted};
use entries::heads::content_at;
use entries::key::key_at;
use entries::tags::tag;
use keys::{Key, order};
use layout::limits::Holding;
use noted::key::key_noted;
use noted::starts::starts_noted;
use pass::kind::{Passed, pass_kind};
use text::lines::{ends_at, plain_end};

// What is kept of a line: its key, where it ends, and where the fields start by which it refers to others, or 0.
#[derive(Clone, Copy, Debug, PartialEq, Eq)]
pub struct Kept {
    pub key: Key,
    pub end: usize,
    pub noted: u32,
}

// A sound line, where its key stands after the one before.
fn in_order(before: Key, kept: Kept) -> Option<Kept>
    ensures { result ≡ after_key (key_list before) kept }
{
    order(before, kept.key).is_lt().then_some(kept)
}

// The line of that number, which starts at `at`, judged by itself.
fn next_judged(holding: &[u8], at: usize, line: usize, before: Key) -> Option<Kept>
    requires { (at ≤ length holding.now) × (line ≤ most_records) }
    ensures { NextIs holding.now at line (key_list before) result }
{
    let end = plain_end(holding, at);
    let kind = held_line(&holding[at..end], ends_at(holding, end), line)?;
    let key = key_at(kind, holding, content_at(holding, at));
    in_order(before, Kept { key, end, noted: 0 })
}

// The line of that number, which starts at `at`, where it is sound and its key stands after the one before.
fn next_line(
    holding: &[u8],
    at: usize,
    line: usize,
    before: Key,
    ends: &mut [usize],
) -> Option<Kept>
    requires { (at ≤ length holding.now) × (32 ≤ length ends.old) }
    ensures { (length ends.new ≡ length ends.old) × NextIs holding.now at line (key_list before) result }
{
    if Holding::most_lines() < line {
        return None;
    }
    match pass_kind(holding, at, &mut *ends) {
        Some(Passed { kind, end }) if passes_noted(kind, &holding[at..end], &*ends, line) => {
            let key = key_noted(kind, holding, at, end, &*ends);
            let noted = starts_noted(kind, holding, at, end, &*ends);
            in_order(before, Kept { key, end, noted })
        }
        _ => next_judged(holding, at, line, before),
    }
}

// How many lines there are, each of them sound, or the lowest faulty one. Leaves where each line starts, twice: an entry of the holding;
// with the tag of each key, and where each line starts to refer to others, where that is noted.
pub fn scan(
    holding: &[u8],
    starts: &mut [u64],
    tags: &mut [u64],
    noted: &mut [u32],
) -> Result<usize, usize>
    requires { (most_records ≤ length starts.old) × (most_records ≤ length tags.old) × (most_records ≤ length noted.old) }
    ensures { ReadAs holding.now (scan scottish 1 none (lines_of holding.now)) result starts.new tags.new noted.new }
{
    let mut ends = [0usize; 32];
    let mut before = Key {
        kind: 0,
        first: 0,
        second: 0,
        third: 0,
    };
    let mut count = 0;
    let mut at = 0;
    while at < holding.len() {
        let line = count + 1;
        let kept = next_line(holding, at, line, before, &mut ends).ok_or(line)?;
        starts[count] = 2 * at as u64;
        tags[count] = tag(kept.key);
        noted[count] = kept.noted;
        before = kept.key;
        count = line;
        at = kept.end + 2;
    }
    Ok(count)
}
