// The line of the record that an entry names, wherever its bytes stand.
ghost use Rattle.std.specs.Prelude.{◌≡◌, ◌≤◌, length};
ghost use Rattle.theory.specs.Step.{inv};
ghost use Rattle.volume.specs.Meant.{change_meant};
ghost use Rattle.entries.specs.Entries.{rec_of, line_at, record_of};
ghost use Rattle.places.specs.Changes.{op_at};
ghost use Rattle.writer.specs.Lines.{line_bytes};
ghost use Rattle.writer.specs.Room.{PutIfFits};

use crate::changes::inverse;
use crate::lines::put_line;
use entries::record::{record_content, record_kind};
use text::lines::line_end;
use text::numbers::width;
use volume::lines::{Change, change_of};

// The text of the line that starts at `at`; past the end stands an empty line.
fn line_text(bytes: &[u8], at: usize) -> &[u8]
    ensures { result.now ≡ line_at bytes.now at }
{
    if bytes.len() < at {
        return &bytes[0..0];
    }
    let end = line_end(bytes, at);
    &bytes[at..end]
}

// The line of the record whose line starts at `at`, where it fits `room` bytes, and then how many bytes it is.
fn put_record(
    out: &mut [u8],
    bytes: &[u8],
    at: usize,
    change: Change,
    number: u64,
    room: usize,
) -> Option<usize>
    requires { room ≤ length out.old }
    ensures { PutIfFits (line_bytes number (record { op = change_meant change; rec = rec_of (line_at bytes.now at) })) room out.old result out.new }
{
    let content = record_content(bytes, at);
    let digits = width(number);
    if room < 10 + digits + content.len() {
        return None;
    }
    let kind = record_kind(bytes, at);
    Some(put_line(&mut *out, kind, change, number, content))
}

// The line of an entry's record, where it fits `room` bytes, and then how many bytes it is.
pub fn put_entry(
    out: &mut [u8],
    holding: &[u8],
    file: &[u8],
    entry: u64,
    change: Change,
    number: u64,
    room: usize,
) -> Option<usize>
    requires { room ≤ length out.old }
    ensures { PutIfFits (line_bytes number (record { op = change_meant change; rec = record_of holding.now file.now entry })) room out.old result out.new }
{
    let at = (entry / 2) as usize;
    if entry % 2 == 0 {
        return put_record(&mut *out, holding, at, change, number, room);
    }
    put_record(&mut *out, file, at, change, number, room)
}

// The change that takes a step of the file back.
pub fn step_back(file: &[u8], step: u64) -> Change
    ensures { change_meant result ≡ inv (op_at file.now step) }
{
    let change = change_of(line_text(file, (step / 2) as usize));
    inverse(change)
}
