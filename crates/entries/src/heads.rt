// How a line begins: its kind, and where its content starts. Lines that begin as held ones do are read without a walk.
ghost use Rattle.std.specs.Prelude.{◌≡◌, ◌&&◌, ◌≤◌, length};
ghost use Rattle.meaning.specs.Lines.{identifier};
ghost use Rattle.meaning.specs.Format.{kind_of};
ghost use Rattle.meaning.specs.Table.{scottish};
ghost use Rattle.layout.specs.Meant.{kind_meant};
ghost use Rattle.entries.specs.Entries.{known, line_at};
ghost use Rattle.entries.specs.Fields.{after_fields, first_field, paired, lettered};

use crate::fields::{first_field, past_fields};
use layout::kinds::Kind;

// Whether the line at `at` begins with two bytes before a comma, as that of every known kind does.
fn is_paired(bytes: &[u8], at: usize) -> bool
    requires { at ≤ length bytes.now }
    ensures { result ≡ paired bytes.now at }
{
    3 <= bytes.len() - at && 44 < bytes[at] && 44 < bytes[at + 1] && bytes[at + 2] == b','
}

// Whether a byte between quotes before a comma follows on that.
fn is_lettered(bytes: &[u8], at: usize) -> bool
    requires { at ≤ length bytes.now }
    ensures { result ≡ lettered bytes.now at }
{
    7 <= bytes.len() - at
        && bytes[at + 3] == b'"'
        && 44 < bytes[at + 4]
        && bytes[at + 5] == b'"'
        && bytes[at + 6] == b','
}

// Whether the line at `at` begins as a held one does.
fn is_headed(bytes: &[u8], at: usize) -> bool
    requires { at ≤ length bytes.now }
    ensures { result ≡ (paired bytes.now at && lettered bytes.now at) }
{
    is_paired(bytes, at) && is_lettered(bytes, at)
}

// Where the content of the line at `at` starts: what stands after its third field.
pub fn content_at(bytes: &[u8], at: usize) -> usize
    requires { at ≤ length bytes.now }
    ensures { (line_at bytes.now result ≡ after_fields 3 (line_at bytes.now at)) × (result ≤ length bytes.now) }
{
    if is_headed(bytes, at) {
        return past_fields(bytes, at + 7, 1);
    }
    past_fields(bytes, at, 3)
}

// The first field of the line at `at`.
fn identifier_at(bytes: &[u8], at: usize) -> &[u8]
    requires { at ≤ length bytes.now }
    ensures { result.now ≡ first_field (line_at bytes.now at) }
{
    if is_paired(bytes, at) {
        return &bytes[at..at + 2];
    }
    first_field(bytes, at)
}

// The kind of the line at `at`; an unknown one is taken for a header's.
pub fn kind_at(bytes: &[u8], at: usize) -> Kind
    requires { at ≤ length bytes.now }
    ensures { kind_meant result ≡ known (kind_of scottish (identifier (line_at bytes.now at))) }
{
    layout::check::kind_of(identifier_at(bytes, at)).unwrap_or(Kind::Header)
}
