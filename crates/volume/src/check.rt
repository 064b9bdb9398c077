// Lines are judged from the first, and within a line its fields: the numbers of the check of a file.
ghost use Rattle.std.specs.Prelude.{◌≡◌, [], ◌≤◌, ◌<◌, IfSome, length};
ghost use Rattle.meaning.specs.Table.{scottish};
ghost use Rattle.meaning.specs.Load.{check_file};
ghost use Rattle.answers.specs.Meant.{said};
ghost use Rattle.volume.specs.Walk.{left_of};
ghost use Rattle.volume.specs.Reading.{Reading};

use crate::lines::{close_line, open_line, stage_after};
use crate::stages::Stage;
use crate::walk::Walk;
use answers::codes::Code;
use answers::numbers::Counts;
use answers::refusal::Refusal;
use layout::check::{malformed_at, sound_at};
use layout::rules::layout;
use pass::kind::{Passed, pass_kind};
use text::fields::split;
use text::lines::{ends_at, plain_end};

// What is answered where no line is left: 3 at the line after the last, unless that was the trailer.
#[tactic(auto, using(crate::proofs::WalkLaws::ends))]
fn ended(walk: Walk) -> Result<Counts, Refusal>
    ensures { said result ≡ left_of walk [] }
{
    if walk.stage != Stage::AfterTrailer {
        return Err(Refusal::of_line(walk.line as u64, Code::OutOfPlace));
    }
    Ok(Counts {
        inserts: walk.inserts as u64,
        updates: walk.updates as u64,
        deletes: walk.deletes as u64,
    })
}

// The check of a file from a line on, each line and within it each field judged by itself: this alone gives codes.
fn check_from(file: &[u8], from: Walk, start: usize) -> Result<Counts, Refusal>
    requires { Reading file.now from start }
    ensures { said result ≡ check_file scottish file.now }
{
    let mut ends = [0usize; 32];
    let mut walk = from;
    let mut at = start;
    let fault = 'lines: loop {
        if file.len() <= at {
            return ended(walk);
        }
        let end = plain_end(file, at);
        let text = &file[at..end];
        let fields = split(text, &mut ends);
        let (kind, after) = match open_line(walk, text, fields, ends_at(file, end)) {
            Ok(opened) => opened,
            Err(fault) => break 'lines fault,
        };
        let mut start = 0;
        for k in 0..layout(kind).count {
            let stop = ends[k];
            let field = &text[start..stop];
            if !sound_at(kind, k, field) {
                break 'lines malformed_at(kind, k, field);
            }
            start = stop + 1;
        }
        if let Err(fault) = close_line(kind, walk.body, text, &ends) {
            break 'lines fault;
        }
        walk = walk.after(kind, text, &ends, after);
        at = end + 2;
    };
    Err(Refusal::at(walk.line as u64, fault))
}

// The walk after the line that starts at `at`, and where the next one starts, if the line is passed in one walk and nothing else is wrong
// with it.
fn pass_on(file: &[u8], walk: Walk, at: usize, ends: &mut [usize]) -> Option<(Walk, usize)>
    requires { Reading file.now walk at × (at ≤ length file.now) × (32 ≤ length ends.old) }
    ensures { (length ends.new ≡ length ends.old) × IfSome result (λ r. Reading file.now r.0 r.1 × (at < r.1) × (r.1 ≤ length file.now)) }
{
    let Passed { kind, end } = pass_kind(file, at, ends)?;
    let after = stage_after(walk, kind)?;
    let text = &file[at..end];
    close_line(kind, walk.body, text, ends).ok()?;
    Some((walk.after(kind, text, ends, after), end + 2))
}

// The check of a file: each line is passed in one walk; the first that isn't is judged by itself, with those after it.
#[tactic(auto, using(crate::proofs::FileLaws::starting))]
pub fn check_file(file: &[u8]) -> Result<Counts, Refusal>
    ensures { said result ≡ check_file scottish file.now }
{
    let mut ends = [0usize; 32];
    let mut walk = Walk::at_start();
    let mut at = 0;
    while let Some((after, next)) = pass_on(file, walk, at, &mut ends) {
        walk = after;
        at = next;
    }
    check_from(file, walk, at)
}
