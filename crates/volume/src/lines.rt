// One line at its stage: what is judged before its fields, and after them.
ghost use Rattle.std.specs.Prelude.{◌≡◌, [], map, ◌<◌, ◌≤◌, ◌^◌, length, get_or};
ghost use Rattle.std.proofs.Math.Option.{none};
ghost use Rattle.base.specs.Lists.{ask};
ghost use Rattle.theory.specs.Decimal.{value};
ghost use Rattle.meaning.specs.Lines.{fields_of};
ghost use Rattle.meaning.specs.Kinds.{role};
ghost use Rattle.meaning.specs.Table.{fields};
ghost use Rattle.meaning.specs.Records.{op_of};
ghost use Rattle.meaning.specs.File.{has_room};
ghost use Rattle.meaning.specs.Answers.{of_field};
ghost use Rattle.answers.specs.Codes.{code_number};
ghost use Rattle.answers.specs.Meant.{fault_found};
ghost use Rattle.layout.specs.Meant.{kind_meant};
ghost use Rattle.layout.specs.Rows.{bare};
ghost use Rattle.text.specs.Places.{field_count, Notes};
ghost use Rattle.layout.specs.Check.{lowest_bad, Parted};
ghost use Rattle.volume.specs.Meant.{stage_meant, stage_found, change_meant};
ghost use Rattle.volume.specs.Judged.{opens, closes, judged_as, staged_as};

use crate::stages::{Stage, next_stage};
use crate::walk::Walk;
use answers::codes::Code;
use answers::refusal::Fault;
use layout::check::{dates_agree, kind_at};
use layout::kinds::{HeldKind, Kind};
use layout::limits::File;
use layout::rules::layout;
use text::fields::{field, noted_field};

// PRO_ORDER of every body line, and RECORD_COUNT of the trailer: both are field 3.
const NUMBER: usize = 3;

// What a body line does to its record.
#[derive(Clone, Copy, Debug, PartialEq, Eq)]
pub enum Change {
    Insert,
    Update,
    Delete,
}

// A body line as it is known: an insert, update or delete of one held kind.
#[derive(Clone, Copy, Debug, PartialEq, Eq)]
pub struct Line {
    pub kind: HeldKind,
    pub change: Change,
}

// Whether there is room for a line after so many body lines: only a body line takes room.
#[tactic(auto, using(crate::proofs::LineLaws::rooms))]
pub fn has_room(kind: Kind, body: usize) -> bool
    ensures { result ≡ has_room (role (kind_meant kind)) body }
{
    match kind {
        Kind::Held(_) => body < File::most_body_lines(),
        Kind::Header | Kind::Metadata | Kind::Trailer => true,
    }
}

// A line before its fields, which are counted: 1, 2, 3, 9, 4, or its kind and the stage after it.
pub fn open_line(
    walk: Walk,
    text: &[u8],
    fields: usize,
    ended: bool,
) -> Result<(Kind, Stage), Fault>
    requires { fields ≡ field_count text.now }
    ensures { judged_as result ≡ opens (stage_meant walk.stage) walk.body ended text.now }
{
    if !ended {
        return Err(Fault::of_line(Code::EndingWrong));
    }
    let Some(kind) = kind_at(text) else {
        return Err(Fault::of_field(Code::IdentifierUnknown, 1));
    };
    let Some(after) = next_stage(walk.stage, kind) else {
        return Err(Fault::of_line(Code::OutOfPlace));
    };
    if !has_room(kind, walk.body) {
        return Err(Fault::of_line(Code::TooManyBodyLines));
    }
    if fields != layout(kind).count {
        return Err(Fault::of_line(Code::FieldCountWrong));
    }
    Ok((kind, after))
}

// The stage after a line of a kind, where it may stand and there is room for it.
#[tactic(auto, using(crate::proofs::LineLaws::staging))]
pub fn stage_after(walk: Walk, kind: Kind) -> Option<Stage>
    ensures { stage_found result ≡ staged_as (stage_meant walk.stage) walk.body (kind_meant kind) }
{
    if !has_room(kind, walk.body) {
        return None;
    }
    next_stage(walk.stage, kind)
}

// The running number of a body line, or the number of body lines that a trailer says.
fn number_of(text: &[u8], ends: &[usize]) -> u64
    requires { Notes text.now ends.now × (2 < length (fields_of text.now)) × (2 < length ends.now) × (length (get_or (fields_of text.now) 2 []) ≤ 16) }
    ensures { result ≡ value (get_or (fields_of text.now) 2 []) }
{
    text::numbers::value(noted_field(text, ends, NUMBER - 1))
}

// A fault of the number, where it is not right.
#[tactic(auto, unfolding(base::specs::Lists::ask))]
fn number_fault(right: bool, code: Code) -> Result<(), Fault>
    ensures { fault_found result ≡ ask right (of_field (code_number code) 3) none }
{
    if right {
        return Ok(());
    }
    Err(Fault::of_field(code, NUMBER as u64))
}

// A line after its fields, which are sound: 6, then 7 or 8.
#[tactic(auto, using(crate::proofs::LineLaws::closing))]
pub fn close_line(kind: Kind, body: usize, text: &[u8], ends: &[usize]) -> Result<(), Fault>
    requires { Parted (kind_meant kind) text.now ends.now × (none ≡ lowest_bad 1 (map bare (fields (kind_meant kind))) (fields_of text.now)) × (body < 2 ^ 63) }
    ensures { fault_found result ≡ closes body (kind_meant kind) text.now }
{
    if !dates_agree(kind, text, ends) {
        return Err(Fault::of_field(Code::EndBeforeStart, layout(kind).end as u64));
    }
    let lines = body as u64;
    match kind {
        Kind::Held(_) => number_fault(number_of(text, ends) == lines + 1, Code::NotRunningNumber),
        Kind::Trailer => number_fault(number_of(text, ends) == lines, Code::RecordCountWrong),
        Kind::Header | Kind::Metadata => Ok(()),
    }
}

// The change that a letter says.
#[tactic(auto, using(crate::proofs::LineLaws::changes))]
fn change_said(letter: &[u8]) -> Change
    ensures { change_meant result ≡ op_of letter.now }
{
    match letter {
        b"\"I\"" => Change::Insert,
        b"\"U\"" => Change::Update,
        _ => Change::Delete,
    }
}

// The change that a sound body line says.
#[tactic(auto, using(crate::proofs::LineLaws::changed))]
pub fn change_of(text: &[u8]) -> Change
    ensures { change_meant result ≡ op_of (get_or (fields_of text.now) 1 []) }
{
    change_said(field(text, 1))
}

// The change that a sound body line says whose fields' ends are noted.
#[tactic(auto, using(crate::proofs::LineLaws::changed))]
pub fn change_noted(text: &[u8], ends: &[usize]) -> Change
    requires { Notes text.now ends.now × (1 < length (fields_of text.now)) × (1 < length ends.now) }
    ensures { change_meant result ≡ op_of (get_or (fields_of text.now) 1 []) }
{
    change_said(noted_field(text, ends, 1))
}

// A sound body line of a kind, as it is known.
pub fn known(kind: HeldKind, text: &[u8]) -> Line
    ensures { (result.kind ≡ kind) × (change_meant result.change ≡ op_of (get_or (fields_of text.now) 1 [])) }
{
    Line {
        kind,
        change: change_of(text),
    }
}
