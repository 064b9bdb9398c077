#![tactic(auto)]

// The record in force if a file were taken: a part of the file or of the holding. Steps are not judged.
ghost use Rattle.std.specs.Prelude.{◌≡◌, [], ◌∷◌, IfErr};
ghost use Rattle.meaning.specs.Table.{scottish};
ghost use Rattle.meaning.specs.File.{read_file};
ghost use Rattle.meaning.specs.Holding.{read_holding};
ghost use Rattle.meaning.specs.Load.{check_file};
ghost use Rattle.meaning.specs.Enquiries.{in_force_file, in_force};
ghost use Rattle.holding.specs.Read.{records_of};
ghost use Rattle.find.specs.Found.{Enquired};
ghost use Rattle.enquiries.specs.Finding.{found_said};
ghost use Rattle.enquiries.specs.Handed.{HandedOf};

use crate::naming::{Naming, last_naming};
use answers::codes::Code;
use answers::refusal::Refusal;
use enquiries::finding::{Part, Side, line_found, side_of};
use enquiries::hand::hand;
use find::{asked_key, held_line, is_enquired, open_holding};
use layout::limits::Holding;
use volume::check::check_file;

pub mod naming; // the last line of a file that names a key

// The last body line of that kind and number in a sound file, or the held line where none names it; 11 where that is a delete.
fn last_line(
    holding: &[u8],
    file: &[u8],
    starts: &[u64],
    tags: &[u64],
    count: usize,
    kind: u64,
    number: u64,
) -> Result<Part, Refusal>
    requires { Enquired holding.now starts.now tags.now count kind × ((check_file scottish file.now).code ≡ 0) }
    ensures { (found_said result ≡ in_force_file scottish holding.now file.now (kind ∷ number ∷ []) (records_of (read_holding scottish holding.now)) (read_file scottish file.now)) × IfErr result (λ refusal. refusal.place ≡ 0) }
{
    match last_naming(file, asked_key(kind, number)) {
        Naming::Unnamed => held_line(holding, starts, tags, count, kind, number),
        Naming::Deleted => Err(Refusal::alone(Code::KeyAbsent)),
        Naming::Named(line) => Ok(line_found(file, line, Side::File)),
    }
}

// The refusal of a file as an enquiry answers it, which names no byte.
fn unplaced(refusal: Refusal) -> Refusal
    ensures { result ≡ record refusal { place = 0 } }
{
    Refusal {
        place: 0,
        ..refusal
    }
}

// Where the record in force stands: 15, then 14, then the file check, then 11. A refusal names no byte.
pub fn line_in_force(holding: &[u8], file: &[u8], kind: u64, number: u64) -> Result<Part, Refusal>
    ensures { (found_said result ≡ in_force scottish holding.now file.now kind number) × IfErr result (λ refusal. refusal.place ≡ 0) }
{
    // Asked before the arrays are made, though `open_holding` asks too: they are cleared, which costs far more than this refusal.
    if !is_enquired(kind) {
        return Err(Refusal::alone(Code::KindNotAsked));
    }
    let mut starts = [0u64; Holding::MOST_LINES];
    let mut tags = [0u64; Holding::MOST_LINES];
    let count = open_holding(holding, &mut starts, &mut tags, kind)?;
    check_file(file).map_err(unplaced)?;
    last_line(holding, file, &starts, &tags, count, kind, number)
}

// The record in force of that kind and number.
pub fn in_force<'a>(
    holding: &'a [u8],
    file: &'a [u8],
    kind: u64,
    number: u64,
    answer: &mut [u64; 3],
) -> &'a [u8]
    ensures { HandedOf (in_force scottish holding.now file.now kind number) holding.entry file.entry result answer.new }
{
    let found = line_in_force(holding, file, kind, number);
    match side_of(found) {
        Side::Holding => hand(holding, found, answer),
        Side::File => hand(file, found, answer),
    }
}
