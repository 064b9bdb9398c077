// What a record refers to.
ghost use Rattle.std.specs.Prelude.{◌≡◌, ◌≤◌, length};
ghost use Rattle.theory.specs.Tri.{is_eq};
ghost use Rattle.theory.specs.Lex.{lex};
ghost use Rattle.form.specs.Meant.{meant};
ghost use Rattle.layout.specs.Meant.{kind_meant};
ghost use Rattle.keys.specs.Numbers.{key_list, referred_as, ref_at};
ghost use Rattle.entries.specs.Entries.{rec_of, line_at, record_of};
ghost use Rattle.entries.specs.Fields.{first_field, by_field};
ghost use Rattle.entries.specs.References.{RefersAs};

use crate::fields::{first_field, line_start, past_fields};
use crate::heads::{content_at, kind_at};
use crate::key::key_at;
use crate::numbers::number_here;
use crate::record::line_of;
use form::Form;
use keys::Key;
use keys::numbers::form_at;
use layout::kinds::Kind;
use layout::rules::layout;

// What the field at `at`, of that form, makes a record refer to of a kind's number.
fn reference_by(form: Form, bytes: &[u8], at: usize, to: u64) -> Option<Key>
    requires { at ≤ length bytes.now }
    ensures { referred_as result ≡ by_field (meant form) (first_field (line_at bytes.now at)) to }
{
    if form::is_empty(form, first_field(bytes, at)) {
        return None;
    }
    Some(Key {
        kind: to,
        first: number_here(form, bytes, at),
        second: 0,
        third: 0,
    })
}

// What the table's row j makes a record refer to whose content stands in the line from `content` on.
fn reference_at(kind: Kind, bytes: &[u8], content: usize, j: usize) -> Option<Key>
    requires { (content ≤ length bytes.now) × (j ≤ 1) }
    ensures { referred_as result ≡ ref_at (kind_meant kind) (line_at bytes.now content) j }
{
    let l = layout(kind);
    let place = l.by[j];
    if place < 4 {
        return None;
    }
    reference_by(
        form_at(kind, place - 1),
        bytes,
        past_fields(bytes, content, place - 4),
        l.to[j],
    )
}

// A record's own key, and what its two rows of the table make it refer to.
#[derive(Clone, Copy, Debug, PartialEq, Eq)]
pub struct Named {
    pub own: Key,
    pub to: [Option<Key>; 2],
}

// What the record whose line starts at `at` refers to.
fn references_at(bytes: &[u8], at: usize) -> Named
    ensures { RefersAs (rec_of (line_at bytes.now at)) result }
{
    let start = line_start(bytes, at);
    let kind = kind_at(bytes, start);
    let content = content_at(bytes, start);
    Named {
        own: key_at(kind, bytes, content),
        to: [
            reference_at(kind, bytes, content, 0),
            reference_at(kind, bytes, content, 1),
        ],
    }
}

// What an entry's record refers to.
pub fn references(holding: &[u8], file: &[u8], entry: u64) -> Named
    ensures { RefersAs (record_of holding.now file.now entry) result }
{
    let (bytes, at) = line_of(holding, file, entry);
    references_at(bytes, at)
}

// Whether two keys are the same.
pub fn is_same_key(a: Key, b: Key) -> bool
    ensures { result ≡ is_eq (lex (key_list a) (key_list b)) }
{
    a == b
}
