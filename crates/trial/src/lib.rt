#![tactic(auto)]

// A trial: a file is tried over a holding, with every test but that of the undo and every step, and nothing is written.
//
// 14, then the whole file check, then 13 for the start, then the steps. The holding and the file are only read. The state is an array of
// places in key order; a step moves places, never bytes. What `load` writes is said by the places and by the steps that were made.
ghost use Rattle.std.specs.Prelude.{◌≤◌, length};
ghost use Rattle.meaning.specs.File.{most_body};
ghost use Rattle.meaning.specs.Holding.{most_records};
ghost use Rattle.judge.specs.Ready.{IsShort};
ghost use Rattle.trial.specs.Trial.{Tries};

use answers::codes::Code;
use answers::numbers::Counts;
use answers::refusal::Refusal;
use holding::read::{read_holding, unsound};
use judge::State;
use layout::limits::Holding;
use steps::run::run;
use volume::check::check_file;

// What a file that is taken comes to: its body lines by their change, how many records are in force after it, how many steps it made, and
// where its body ends.
#[derive(Clone, Copy, Debug, PartialEq, Eq)]
pub struct Trial {
    pub counts: Counts,
    pub count: usize,
    pub steps: usize,
    pub end: usize,
}

// Tries a file over a holding whose bytes may grow to `room`: `places` say the records in force then, and `steps` and `before` how the
// steps are taken back.
pub fn try_file(
    holding: &[u8],
    file: &[u8],
    places: &mut [u64],
    steps: &mut [u64],
    before: &mut [u64],
    room: usize,
) -> Result<Trial, Refusal>
    requires { (most_records ≤ length places.old) × (most_body ≤ length steps.old) × (most_body ≤ length before.old) × IsShort room }
    ensures { Tries holding.now file.now places.new steps.new before.new room result }
{
    let mut tags = [0u64; Holding::MOST_LINES];
    let mut noted = [0u16; Holding::MOST_LINES];
    let count = read_holding(holding, &mut *places, &mut tags, &mut noted).map_err(unsound)?;
    let counts = check_file(file)?;
    let size = holding.len();
    if room < size {
        return Err(Refusal::alone(Code::HoldingTooLong));
    }
    let ran = run(
        holding,
        file,
        &mut *places,
        &mut tags,
        &mut noted,
        &mut *steps,
        &mut *before,
        State { count, size },
        room,
    )?;
    Ok(Trial {
        counts,
        count: ran.state.count,
        steps: ran.steps,
        end: ran.end,
    })
}
