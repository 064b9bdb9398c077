// Lines one after another, numbered from 1: the new holding, and the undo's body.
ghost use Rattle.std.specs.Prelude.{◌≡◌, ◌≤◌, length};
ghost use Rattle.meaning.specs.Holding.{written};
ghost use Rattle.text.specs.Front.{in_front};
ghost use Rattle.places.specs.Places.{says};
ghost use Rattle.writer.specs.Room.{PutIfFits};
ghost use Rattle.writer.specs.Runs.{back_texts};

use crate::entry::{put_entry, step_back};
use volume::lines::Change;

// The records of the first `count` entries, as inserts.
pub fn write_holding(
    out: &mut [u8],
    holding: &[u8],
    file: &[u8],
    places: &[u64],
    count: usize,
) -> usize
    requires { (count ≤ length places.now) × (length (written (says holding.now file.now places.now count)) ≤ length out.old) }
    ensures { (result ≡ length (written (says holding.now file.now places.now count)))
        × (out.new ≡ in_front (written (says holding.now file.now places.now count)) out.old) }
{
    let mut pos = 0;
    for i in 0..count {
        let room = out.len() - pos;
        let number = (i + 1) as u64;
        let Some(size) = put_entry(
            &mut out[pos..],
            holding,
            file,
            places[i],
            Change::Insert,
            number,
            room,
        ) else {
            unreachable!();
        };
        pos += size;
    }
    pos
}

// The first `count` steps taken back, the last first, where they fit `room` bytes: `steps` has their own entries, `before` what stood at
// their keys, or their own where nothing did.
pub fn write_back(
    out: &mut [u8],
    holding: &[u8],
    file: &[u8],
    steps: &[u64],
    before: &[u64],
    count: usize,
    room: usize,
) -> Option<usize>
    requires { (count ≤ length steps.now) × (count ≤ length before.now) × (room ≤ length out.old) }
    ensures { PutIfFits (back_texts holding.now file.now steps.now before.now count) room out.old result out.new }
{
    let mut pos = 0;
    for done in 0..count {
        let last = count - done - 1;
        let change = step_back(file, steps[last]);
        let number = (done + 1) as u64;
        pos += put_entry(
            &mut out[pos..],
            holding,
            file,
            before[last],
            change,
            number,
            room - pos,
        )?;
    }
    Some(pos)
}
