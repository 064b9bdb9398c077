#![tactic(auto)]

// A load: a file is taken whole or it isn't taken, and a file that was taken can be handed back.
//
// The file is tried over the holding, and that writes nothing. Then the undo and the new holding are written, each once, front to back; or
// both buffers are made zeros.
ghost use Rattle.std.specs.Prelude.{◌≡◌, length};
ghost use Rattle.base.specs.Lists.{zeros};
ghost use Rattle.answers.specs.Meant.{answer_said};
ghost use Rattle.loader.specs.Outcome.{Outcome, TakenAs};

use crate::fill::{fill_holding, fill_undo};
use answers::codes::Code;
use answers::numbers::Counts;
use answers::refusal::Refusal;
use layout::limits::{File, Holding};
use text::put;
use trial::try_file;

pub mod undo; // the undo, where it fits
pub mod fill; // a buffer: its result, then zeros

// Both buffers are all zeros, as a refusal leaves them.
fn clear(out: &mut [u8], undo: &mut [u8])
    ensures { (out.new ≡ zeros (length out.old)) × (undo.new ≡ zeros (length undo.old)) }
{
    put::zeros(&mut *out);
    put::zeros(&mut *undo);
}

// Loads a file into a holding, where it is taken: on a refusal the buffers are left as far as they were written.
fn take(holding: &[u8], file: &[u8], out: &mut [u8], undo: &mut [u8]) -> Result<Counts, Refusal>
    ensures { TakenAs holding.now file.now (length out.old) (length undo.old) result out.new undo.new }
{
    let mut places = [0u64; Holding::MOST_LINES];
    let mut steps = [0u64; File::MOST_BODY_LINES];
    let mut before = [0u64; File::MOST_BODY_LINES];
    let room = out.len();
    let trial = try_file(holding, file, &mut places, &mut steps, &mut before, room)?;
    let made = trial.steps;
    let end = trial.end;
    if !fill_undo(&mut *undo, holding, file, &steps, &before, made, end) {
        return Err(Refusal::alone(Code::UndoTooLong));
    }
    fill_holding(&mut *out, holding, file, &places, trial.count);
    Ok(trial.counts)
}

// Loads a file into a holding: the body lines counted, and the new holding and the file's undo, each in its buffer; or why it is refused,
// and zeros in both.
pub fn load(holding: &[u8], file: &[u8], out: &mut [u8], undo: &mut [u8]) -> Result<Counts, Refusal>
    ensures { Outcome holding.now file.now (length out.old) (length undo.old) (answer_said result) out.new undo.new }
{
    let taken = take(holding, file, &mut *out, &mut *undo);
    if taken.is_err() {
        clear(&mut *out, &mut *undo);
    }
    taken
}
