// References come after all lines: a record may refer to one on a later line.
ghost use Rattle.std.specs.Prelude.{◌≡◌, true, ◌/◌, ◌≤◌, ◌<◌, length};
ghost use Rattle.keys.specs.Numbers.{key_numbers, ref_numbers};
ghost use Rattle.entries.specs.Entries.{rec_of, line_at, record_of};
ghost use Rattle.entries.specs.Tags.{tag_of};
ghost use Rattle.places.specs.Places.{says};
ghost use Rattle.places.specs.Counts.{Open, Notes};
ghost use Rattle.places.specs.Ordered.{Ordered};
ghost use Rattle.noted.specs.Noted.{RefsNoted};
ghost use Rattle.holding.specs.Read.{NotedAs, CountsAs};
ghost use Rattle.meaning.specs.Holding.{most_records};

use noted::tags::tags_noted;
use places::counts::{clear, note, note_tags};

// Whether the references of an entry's record are met, and if so counts them in: by the tags of what is noted of its line, where each is
// of one key alone.
fn note_noted(
    holding: &[u8],
    starts: &[u64],
    tags: &[u64],
    counts: &mut [u16],
    count: usize,
    entry: u64,
    own: u64,
    noted: u32,
) -> bool
    requires { Ordered holding.now holding.now starts.now tags.now count × (count ≤ length counts.old) × Open true (says holding.now holding.now starts.now count) counts.old (ref_numbers (record_of holding.now holding.now entry)) × (own ≡ tag_of (key_numbers (record_of holding.now holding.now entry))) × (0 < noted → RefsNoted holding.now (entry / 2) noted (rec_of (line_at holding.now (entry / 2)))) }
    ensures { Notes true (says holding.now holding.now starts.now count) (record_of holding.now holding.now entry) counts.old counts.new result }
{
    if noted != 0 {
        let to = tags_noted(holding, (entry / 2) as usize, noted);
        if to[0] % 2 == 0 && to[1] % 2 == 0 {
            return note_tags(
                holding, holding, starts, tags, counts, count, entry, own, to,
            );
        }
    }
    note(holding, holding, starts, tags, counts, count, entry, true)
}

// Counts how often each record is referred to, or says which is the lowest, counted from 1, whose references are not all met.
pub fn unmet(
    holding: &[u8],
    starts: &[u64],
    tags: &[u64],
    noted: &[u32],
    counts: &mut [u16],
    count: usize,
) -> Result<(), usize>
    requires { Ordered holding.now holding.now starts.now tags.now count × (count ≤ length counts.old) × (count ≤ most_records) × NotedAs holding.now starts.now noted.now count × (count ≤ length noted.now) }
    ensures { CountsAs holding.now starts.now count counts.new result }
{
    clear(&mut *counts, count);
    for i in 0..count {
        if !note_noted(
            holding,
            starts,
            tags,
            &mut *counts,
            count,
            starts[i],
            tags[i],
            noted[i],
        ) {
            return Err(i + 1);
        }
    }
    Ok(())
}
