// The undo of a file, into the front of its buffer where it fits.
ghost use Rattle.std.specs.Prelude.{◌≤◌, length};
ghost use Rattle.writer.specs.Room.{PutIfFits};
ghost use Rattle.trial.specs.Trial.{undo_text};
ghost use Rattle.loader.specs.Lent.{Lent};

use text::lines::line_end;
use text::put;
use writer::runs::write_back;

// The file's first line, the steps taken back, and what follows the body, each into what is still free of the buffer.
pub fn put_undo(
    out: &mut [u8],
    holding: &[u8],
    file: &[u8],
    steps: &[u64],
    before: &[u64],
    count: usize,
    end: usize,
) -> Option<usize>
    requires { (count ≤ length steps.now) × Lent file.now before.now count end }
    ensures { PutIfFits (undo_text holding.now file.now steps.now before.now count end) (length out.old) out.old result out.new }
{
    let start = line_end(file, 0) + 2;
    let frame = start + (file.len() - end);
    if out.len() < frame {
        return None;
    }
    let room = out.len() - frame;
    let at = put::bytes(&mut *out, &file[0..start]);
    let pos = at + write_back(&mut out[at..], holding, file, steps, before, count, room)?;
    Some(pos + put::bytes(&mut out[pos..], &file[end..]))
}
