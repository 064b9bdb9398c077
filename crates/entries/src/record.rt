// The record that the line at an offset carries: its kind and its content; past the end stands an empty line. And the line of an entry.
ghost use Rattle.std.specs.Prelude.{◌≡◌, ◌≤◌, max, length};
ghost use Rattle.layout.specs.Meant.{kind_meant};
ghost use Rattle.entries.specs.Entries.{rec_of, line_at, record_of};

use crate::fields::line_start;
use crate::heads::{content_at, kind_at};
use layout::kinds::Kind;
use text::lines::line_end;

// Its kind; an unknown one is taken for a header's.
pub fn record_kind(bytes: &[u8], at: usize) -> Kind
    ensures { kind_meant result ≡ (rec_of (line_at bytes.now at)).kind }
{
    kind_at(bytes, line_start(bytes, at))
}

// Its content.
pub fn record_content(bytes: &[u8], at: usize) -> &[u8]
    ensures { result.now ≡ (rec_of (line_at bytes.now at)).content }
{
    let content = content_at(bytes, line_start(bytes, at));
    let end = line_end(bytes, content);
    &bytes[content..end]
}

// Where the line of an entry stands: in the holding or in the file, and from where on.
pub fn line_of<'a>(holding: &'a [u8], file: &'a [u8], entry: u64) -> (&'a [u8], usize)
    ensures { (rec_of (line_at result.0.now result.1) ≡ record_of holding.now file.now entry) × (length result.0.now ≤ max (length holding.now) (length file.now)) }
{
    let bytes = if entry % 2 == 0 { holding } else { file };
    (bytes, (entry / 2) as usize)
}
