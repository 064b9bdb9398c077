// The key of a line that was passed, read where the ends of its fields are noted.
ghost use Rattle.std.specs.Prelude.{◌≡◌, ◌≤◌, length};
ghost use Rattle.meaning.specs.Lines.{fields_of};
ghost use Rattle.text.specs.Places.{Notes};
ghost use Rattle.layout.specs.Meant.{kind_meant};
ghost use Rattle.pass.specs.Kinds.{PassedAs};
ghost use Rattle.keys.specs.Numbers.{key_list, key_numbers};
ghost use Rattle.entries.specs.Entries.{rec_of, line_at};
ghost use Rattle.noted.specs.Reads.{number_read, number_placed};

use keys::Key;
use keys::numbers::{plain_number, text_number};
use layout::kinds::Kind;
use layout::rules::layout;
use text::fields::noted_field;

// The number of a field of a key: that of its digits where it begins with a quote, else its value.
fn number_read(f: &[u8]) -> u64
    ensures { result ≡ number_read f.now }
{
    if !f.is_empty() && f[0] == b'"' {
        return text_number(f);
    }
    plain_number(f)
}

// The number of the field at a place; 0 where there is none.
fn number_noted(line: &[u8], ends: &[usize], place: usize) -> u64
    requires { Notes line.now ends.now × (place ≤ length (fields_of line.now)) × (place ≤ length ends.now) }
    ensures { result ≡ number_placed line.now place }
{
    if place < 4 {
        return 0;
    }
    number_read(noted_field(line, ends, place - 1))
}

// The key of the record of a line that was passed.
pub fn key_noted(kind: Kind, s: &[u8], at: usize, end: usize, ends: &[usize]) -> Key
    requires { PassedAs (kind_meant kind) s.now ends.now at end }
    ensures { key_list result ≡ key_numbers (rec_of (line_at s.now at)) }
{
    let l = layout(kind);
    let line = &s[at..end];
    Key {
        kind: l.number,
        first: number_noted(line, ends, l.key[0]),
        second: number_noted(line, ends, l.key[1]),
        third: number_noted(line, ends, l.key[2]),
    }
}
