// The run of a sound file over the records in force, up to the first step that is refused.
ghost use Rattle.std.specs.Prelude.{◌≡◌, ◌≤◌, T, length};
ghost use Rattle.meaning.specs.Table.{scottish};
ghost use Rattle.meaning.specs.File.{read_file, most_body};
ghost use Rattle.judge.specs.Ready.{Ready};
ghost use Rattle.steps.specs.Run.{is_file, body_kind, body_meant, Runs};

use crate::step::step;
use answers::refusal::Refusal;
use entries::record::record_kind;
use judge::State;
use layout::kinds::{HeldKind, Kind};
use text::lines::line_end;
use volume::lines::known;

// The state after the last step, how many steps were made, and where the line after them starts.
#[derive(Clone, Copy, Debug, PartialEq, Eq)]
pub struct Ran {
    pub state: State,
    pub steps: usize,
    pub end: usize,
}

// The kind of the body line at `at`; none past the body.
fn body_kind(file: &[u8], at: usize) -> Option<HeldKind>
    ensures { body_meant result ≡ body_kind file.now at }
{
    if file.len() <= at {
        return None;
    }
    match record_kind(file, at) {
        Kind::Held(kind) => Some(kind),
        _ => None,
    }
}

// The steps of a sound file, body line by body line; its header stands on line 1. Each step leaves its own entry in `steps`, and in
// `before` what stood at its key, or its own entry where nothing did.
pub fn run(
    holding: &[u8],
    file: &[u8],
    places: &mut [u64],
    tags: &mut [u64],
    counts: &mut [u16],
    steps: &mut [u64],
    before: &mut [u64],
    start: State,
    room: usize,
) -> Result<Ran, Refusal>
    requires { Ready holding.now file.now places.old tags.old counts.old room start × T (is_file (read_file scottish file.now)) × (most_body ≤ length steps.old) × (most_body ≤ length before.old) }
    ensures { Runs holding.now file.now places.old places.new tags.new counts.new steps.new before.new room start result }
{
    let mut at = line_end(file, 0) + 2;
    let mut made = 0;
    let mut state = start;
    while let Some(kind) = body_kind(file, at) {
        let end = line_end(file, at);
        let stepped = match step(
            holding,
            file,
            at,
            known(kind, &file[at..end]),
            &mut *places,
            &mut *tags,
            &mut *counts,
            state,
            room,
        ) {
            Ok(stepped) => stepped,
            Err(code) => return Err(Refusal::of_line(made as u64 + 2, code)),
        };
        steps[made] = 2 * (at as u64) + 1;
        before[made] = stepped.before;
        state = stepped.state;
        at = end + 2;
        made += 1;
    }
    Ok(Ran {
        state,
        steps: made,
        end: at,
    })
}
