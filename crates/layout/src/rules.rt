// A row of the table, read. But for a step, which matches on kind and change, and the walk of a line, which takes its kind's rows, only
// this file goes by cases on the held kinds.
ghost use Rattle.std.specs.Prelude.{◌≡◌, ◌<◌, length};
ghost use Rattle.meaning.specs.Kinds.{role, kinds, numbered_among};
ghost use Rattle.meaning.specs.Table.{fields};
ghost use Rattle.meaning.specs.Holding.{is_held};
ghost use Rattle.form.specs.Meant.{meant};
ghost use Rattle.layout.specs.Meant.{held_meant, kind_meant, kind_found};
ghost use Rattle.layout.specs.Rows.{laid_out, row_of, decoded, form_decoded, filled_decoded, sound_by};

use crate::kinds::{HeldKind, Kind};
use crate::records::{AppXref, Blpu, Header, Layout, Lpi, Metadata, Street, StreetXref, Trailer};
use form::Form;

// What a held kind is.
fn held_layout(kind: HeldKind) -> Layout
    ensures { result ≡ laid_out (held_meant kind) }
{
    match kind {
        HeldKind::Street => Street::LAYOUT,
        HeldKind::StreetXref => StreetXref::LAYOUT,
        HeldKind::Blpu => Blpu::LAYOUT,
        HeldKind::AppXref => AppXref::LAYOUT,
        HeldKind::Lpi => Lpi::LAYOUT,
    }
}

// What a kind is.
pub fn layout(kind: Kind) -> Layout
    ensures { result ≡ laid_out (kind_meant kind) }
{
    match kind {
        Kind::Header => Header::LAYOUT,
        Kind::Held(held) => held_layout(held),
        Kind::Metadata => Metadata::LAYOUT,
        Kind::Trailer => Trailer::LAYOUT,
    }
}

// Whether a kind is held.
pub fn is_held(kind: Kind) -> bool
    ensures { result ≡ is_held (role (kind_meant kind)) }
{
    matches!(kind, Kind::Held(_))
}

// The row of a held kind's field, counted from 0.
fn held_row(kind: HeldKind, k: usize) -> u32
    requires { k < length (fields (held_meant kind)) }
    ensures { decoded result ≡ row_of (held_meant kind) k }
{
    match kind {
        HeldKind::Street => Street::FIELDS[k],
        HeldKind::StreetXref => StreetXref::FIELDS[k],
        HeldKind::Blpu => Blpu::FIELDS[k],
        HeldKind::AppXref => AppXref::FIELDS[k],
        HeldKind::Lpi => Lpi::FIELDS[k],
    }
}

// The row of a kind's field, counted from 0.
pub fn row(kind: Kind, k: usize) -> u32
    requires { k < length (fields (kind_meant kind)) }
    ensures { decoded result ≡ row_of (kind_meant kind) k }
{
    match kind {
        Kind::Header => Header::FIELDS[k],
        Kind::Held(held) => held_row(held, k),
        Kind::Metadata => Metadata::FIELDS[k],
        Kind::Trailer => Trailer::FIELDS[k],
    }
}

// The kind that a number identifies.
pub fn kind_numbered(n: u64) -> Option<Kind>
    ensures { kind_found result ≡ numbered_among kinds n }
{
    match n {
        10 => Some(Kind::Header),
        11 => Some(Kind::Held(HeldKind::Street)),
        12 => Some(Kind::Held(HeldKind::StreetXref)),
        21 => Some(Kind::Held(HeldKind::Blpu)),
        23 => Some(Kind::Held(HeldKind::AppXref)),
        24 => Some(Kind::Held(HeldKind::Lpi)),
        29 => Some(Kind::Metadata),
        99 => Some(Kind::Trailer),
        _ => None,
    }
}

// The form that a row says.
pub fn form_of(row: u32) -> Form
    ensures { meant result ≡ form_decoded row }
{
    let width = (row / 16 % 256) as usize;
    let decimals = (row / 4096 % 16) as usize;
    match row % 16 {
        0 => Form::Number(width),
        1 => Form::AtLeast1(width),
        2 => Form::Decimal(width, decimals),
        3 => Form::Date,
        4 => Form::Time,
        5 => Form::Text(width),
        6 => Form::ChangeType,
        7 => Form::XrefType,
        8 => Form::FileType,
        9 => Form::KeyText((row / 16 % 256) as u8),
        _ => Form::KeyText((row / 16 % 256) as u8), // no row says more; an arm for 9 spares a minimum before the jump
    }
}

// Whether a row says that its field must be filled.
pub fn is_mandatory(row: u32) -> bool
    ensures { result ≡ filled_decoded row }
{
    row / 65536 % 2 == 1
}

// Whether a field is sound as a row has it.
pub fn sound_by(row: u32, f: &[u8]) -> bool
    ensures { result ≡ sound_by row f.now }
{
    form::sound(form_of(row), is_mandatory(row), f)
}
