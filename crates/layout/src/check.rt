// The check of one line's fields by the table: 4 for their number, 5 for the lowest that is malformed, with the place in it, 6 for END_DATE
// before START_DATE.
ghost use Rattle.std.specs.Prelude.{◌≡◌, map, ◌+◌, ◌<◌, length};
ghost use Rattle.std.proofs.Math.Option.{none};
ghost use Rattle.meaning.specs.Forms.{sound_as};
ghost use Rattle.meaning.specs.Lines.{identifier, fields_of};
ghost use Rattle.meaning.specs.Format.{kind_of};
ghost use Rattle.meaning.specs.Table.{fields, scottish};
ghost use Rattle.meaning.specs.Sound.{dates_agree, form_fault};
ghost use Rattle.answers.specs.Meant.{fault_meant, fault_found};
ghost use Rattle.layout.specs.Meant.{kind_meant, kind_found};
ghost use Rattle.layout.specs.Rows.{bare, row_of};
ghost use Rattle.layout.specs.Check.{bad_field, lowest_bad, kind_dates, Parted};

use crate::kinds::Kind;
use crate::place::place_by;
use crate::rules::{kind_numbered, layout, row, sound_by};
use answers::codes::Code;
use answers::refusal::Fault;
use text::fields::{identifier_end, noted_field, split};

// The kind of an identifier.
pub fn kind_of(identifier: &[u8]) -> Option<Kind>
    ensures { kind_found result ≡ kind_of scottish identifier.now }
{
    if identifier.len() != 2 || !number::is_digits(identifier) {
        return None;
    }
    kind_numbered(text::numbers::value(identifier))
}

// The kind of a line.
pub fn kind_at(line: &[u8]) -> Option<Kind>
    ensures { kind_found result ≡ kind_of scottish (identifier line.now) }
{
    let end = identifier_end(line);
    kind_of(&line[0..end])
}

// Whether a field, counted from 0, is sound as its row has it.
pub fn sound_at(kind: Kind, k: usize, f: &[u8]) -> bool
    requires { k < length (fields (kind_meant kind)) }
    ensures { result ≡ sound_as scottish.text_rule (row_of (kind_meant kind) k).0 (row_of (kind_meant kind) k).1 f.now }
{
    sound_by(row(kind, k), f)
}

// The fault of a malformed field, counted from 0, with the place in it.
pub fn malformed_at(kind: Kind, k: usize, f: &[u8]) -> Fault
    requires { k < length (fields (kind_meant kind)) }
    ensures { fault_meant result ≡ bad_field (k + 1) (row_of (kind_meant kind) k) f.now }
{
    let place = place_by(row(kind, k), f);
    Fault::of_byte(Code::FieldMalformed, (k + 1) as u64, place as u64)
}

// Whether each field of a line is sound, or the fault of the lowest that is malformed.
pub fn lowest_malformed(kind: Kind, line: &[u8], ends: &[usize]) -> Result<(), Fault>
    requires { Parted (kind_meant kind) line.now ends.now }
    ensures { fault_found result ≡ lowest_bad 1 (map bare (fields (kind_meant kind))) (fields_of line.now) }
{
    let mut at = 0;
    for k in 0..layout(kind).count {
        let end = ends[k];
        let field = &line[at..end];
        if !sound_at(kind, k, field) {
            return Err(malformed_at(kind, k, field));
        }
        at = end + 1;
    }
    Ok(())
}

// Whether an END_DATE, where filled, isn't before a filled START_DATE: dates stand in the order of their bytes, and nothing is before an
// empty one.
pub fn dates_in_order(start: &[u8], end: &[u8]) -> bool
    ensures { result ≡ dates_agree start.now end.now }
{
    end.is_empty() || text::order::texts(end, start).is_ge()
}

// Whether the dates of a line, where its kind has them, are in order.
pub fn dates_agree(kind: Kind, line: &[u8], ends: &[usize]) -> bool
    requires { Parted (kind_meant kind) line.now ends.now }
    ensures { result ≡ kind_dates (kind_meant kind) (fields_of line.now) }
{
    let l = layout(kind);
    if l.start == 0 || l.end == 0 {
        return true;
    }
    dates_in_order(
        noted_field(line, ends, l.start - 1),
        noted_field(line, ends, l.end - 1),
    )
}

// A line's first fault in count, form and dates.
pub fn check_line(kind: Kind, line: &[u8]) -> Result<(), Fault>
    ensures { fault_found result ≡ form_fault scottish (kind_meant kind) line.now none }
{
    let l = layout(kind);
    let mut ends = [0usize; 32];
    if split(line, &mut ends) != l.count {
        return Err(Fault::of_line(Code::FieldCountWrong));
    }
    lowest_malformed(kind, line, &ends)?;
    if !dates_agree(kind, line, &ends) {
        return Err(Fault::of_field(Code::EndBeforeStart, l.end as u64));
    }
    Ok(())
}
