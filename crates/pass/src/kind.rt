// A line by its kind.
ghost use Rattle.std.specs.Prelude.{◌≡◌, ◌≤◌, IfSome, length, get_or};
ghost use Rattle.std.proofs.Math.Option.{some};
ghost use Rattle.layout.specs.Meant.{kind_meant, kind_found};
ghost use Rattle.pass.specs.Kinds.{Begins, PassedAs, FoundAs};

use crate::line::pass_line;
use layout::check::kind_of;
use layout::kinds::{HeldKind, Kind};
use layout::records::{AppXref, Blpu, Header, Lpi, Metadata, Street, StreetXref, Trailer};

// A line that was passed: its kind, and where it ends.
#[derive(Clone, Copy)]
pub struct Passed {
    pub kind: Kind,
    pub end: usize,
}

// The kind of the line that starts at `at`, if a comma stands after two bytes.
fn kind_here(s: &[u8], at: usize) -> Option<Kind>
    requires { at ≤ length s.now }
    ensures { Begins s.now at (kind_found result) }
{
    let end = at + 2;
    let Some(b',') = s.get(end) else {
        return None;
    };
    kind_of(&s[at..end])
}

// Where a line of a kind ends, if it is seen to be sound by the kind's rows.
fn pass_by(s: &[u8], at: usize, kind: Kind, ends: &mut [usize]) -> Option<usize>
    requires { Begins s.now at (some (kind_meant kind)) × (32 ≤ length ends.old) × (get_or ends.old 0 0 ≡ 2) }
    ensures { (length ends.new ≡ length ends.old) × IfSome result (λ r. PassedAs (kind_meant kind) s.now ends.new at r) }
{
    match kind {
        Kind::Header => pass_line(s, at, &Header::FIELDS, ends),
        Kind::Held(HeldKind::Street) => pass_line(s, at, &Street::FIELDS, ends),
        Kind::Held(HeldKind::StreetXref) => pass_line(s, at, &StreetXref::FIELDS, ends),
        Kind::Held(HeldKind::Blpu) => pass_line(s, at, &Blpu::FIELDS, ends),
        Kind::Held(HeldKind::AppXref) => pass_line(s, at, &AppXref::FIELDS, ends),
        Kind::Held(HeldKind::Lpi) => pass_line(s, at, &Lpi::FIELDS, ends),
        Kind::Metadata => pass_line(s, at, &Metadata::FIELDS, ends),
        Kind::Trailer => pass_line(s, at, &Trailer::FIELDS, ends),
    }
}

// Passes the line that starts at `at`, if it is seen to be sound as a line of its kind, with the ends of its fields noted from its start
// on.
pub fn pass_kind(s: &[u8], at: usize, ends: &mut [usize]) -> Option<Passed>
    requires { (at ≤ length s.now) × (32 ≤ length ends.old) }
    ensures { (length ends.new ≡ length ends.old) × FoundAs s.now at ends.new result }
{
    let kind = kind_here(s, at)?;
    ends[0] = 2;
    let end = pass_by(s, at, kind, ends)?;
    Some(Passed { kind, end })
}
