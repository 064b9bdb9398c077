// The key of the record that a line carries, and of an entry's.
ghost use Rattle.std.specs.Prelude.{◌≡◌, [], ◌∷◌, ◌≤◌, length};
ghost use Rattle.theory.specs.Lex.{lex};
ghost use Rattle.text.specs.Order.{tri_of};
ghost use Rattle.layout.specs.Meant.{held_meant, kind_meant};
ghost use Rattle.layout.specs.Rows.{laid_out};
ghost use Rattle.keys.specs.Numbers.{key_list, key_numbers};
ghost use Rattle.entries.specs.Entries.{rec_of, line_at, record_of};
ghost use Rattle.entries.specs.Fields.{after_fields, rest_numbers};

use crate::fields::line_start;
use crate::heads::{content_at, kind_at};
use crate::numbers::{first_number, number_at};
use crate::record::line_of;
use keys::Key;
use layout::kinds::{HeldKind, Kind};
use layout::records::Layout;
use layout::rules::layout;
use std::cmp::Ordering;
use text::order::numbers;

// The key, by its kind's layout, of a record whose content stands in the line from `content` on.
fn key_by(l: Layout, kind: Kind, bytes: &[u8], content: usize) -> Key
    requires { (content ≤ length bytes.now) × (l ≡ laid_out (kind_meant kind)) }
    ensures { key_list result ≡ key_numbers (record { kind = kind_meant kind; content = line_at bytes.now content }) }
{
    Key {
        kind: l.number,
        first: number_at(kind, bytes, content, l.key[0]),
        second: number_at(kind, bytes, content, l.key[1]),
        third: number_at(kind, bytes, content, l.key[2]),
    }
}

// The key of a record whose content stands in the line from `content` on.
pub fn key_at(kind: Kind, bytes: &[u8], content: usize) -> Key
    requires { content ≤ length bytes.now }
    ensures { key_list result ≡ key_numbers (record { kind = kind_meant kind; content = line_at bytes.now content }) }
{
    key_by(layout(kind), kind, bytes, content)
}

// The key, by its kind's layout, of the record of a held kind whose line starts at `at`.
pub fn line_key(l: Layout, kind: HeldKind, bytes: &[u8], at: usize) -> Key
    requires { (at ≤ length bytes.now) × (l ≡ laid_out (held_meant kind)) × (held_meant kind ≡ (rec_of (line_at bytes.now at)).kind) }
    ensures { key_list result ≡ key_numbers (rec_of (line_at bytes.now at)) }
{
    key_by(l, Kind::Held(kind), bytes, content_at(bytes, at))
}

// The key of the record whose line starts at `at`; past the end stands an empty line.
pub fn record_key(bytes: &[u8], at: usize) -> Key
    ensures { key_list result ≡ key_numbers (rec_of (line_at bytes.now at)) }
{
    let start = line_start(bytes, at);
    let kind = kind_at(bytes, start);
    key_at(kind, bytes, content_at(bytes, start))
}

// The key of an entry's record.
pub fn entry_key(holding: &[u8], file: &[u8], entry: u64) -> Key
    ensures { key_list result ≡ key_numbers (record_of holding.now file.now entry) }
{
    let (bytes, at) = line_of(holding, file, entry);
    record_key(bytes, at)
}

// How the second and third numbers of a key stand to those of a record whose content stands in the line from `content` on.
fn rest_against(kind: Kind, bytes: &[u8], content: usize, key: Key) -> Ordering
    requires { content ≤ length bytes.now }
    ensures { tri_of result ≡ lex (key.second ∷ (key.third ∷ [])) (rest_numbers (kind_meant kind) (line_at bytes.now content)) }
{
    let places = layout(kind).key;
    let second = number_at(kind, bytes, content, places[1]);
    if key.second != second {
        return numbers(key.second, second);
    }
    numbers(key.third, number_at(kind, bytes, content, places[2]))
}

// How a key stands to that of a record of a kind in the line from `start` on: no field is read where the kinds tell, and no second
// field where the first ones do.
fn against_at(kind: Kind, bytes: &[u8], start: usize, key: Key) -> Ordering
    requires { start ≤ length bytes.now }
    ensures { tri_of result ≡ lex (key_list key) (key_numbers (record { kind = kind_meant kind; content = after_fields 3 (line_at bytes.now start) })) }
{
    let number = layout(kind).number;
    if key.kind != number {
        return numbers(key.kind, number);
    }
    let content = content_at(bytes, start);
    let first = first_number(kind, bytes, content);
    if key.first != first {
        return numbers(key.first, first);
    }
    rest_against(kind, bytes, content, key)
}

// How a key stands to that of the record whose line starts at `at`.
pub fn against_line(bytes: &[u8], at: usize, key: Key) -> Ordering
    ensures { tri_of result ≡ lex (key_list key) (key_numbers (rec_of (line_at bytes.now at))) }
{
    let start = line_start(bytes, at);
    against_at(kind_at(bytes, start), bytes, start, key)
}

// How a key stands to an entry's.
pub fn against(holding: &[u8], file: &[u8], entry: u64, key: Key) -> Ordering
    ensures { tri_of result ≡ lex (key_list key) (key_numbers (record_of holding.now file.now entry)) }
{
    let (bytes, at) = line_of(holding, file, entry);
    against_line(bytes, at, key)
}
