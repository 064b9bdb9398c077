// The fields of the line at an offset, walked from its start up to the one that is wanted: the line's end is not looked for first.
ghost use Rattle.std.specs.Prelude.{◌≡◌, false, ◌+◌, ◌≤◌, length};
ghost use Rattle.text.specs.Places.{field_len};
ghost use Rattle.entries.specs.Entries.{line_at};
ghost use Rattle.entries.specs.Fields.{after_fields, first_field};

use text::lines::ends_at;

// Where the line at `at` starts: past the end stands an empty line.
pub fn line_start(bytes: &[u8], at: usize) -> usize
    ensures { (line_at bytes.now result ≡ line_at bytes.now at) × (result ≤ length bytes.now) }
{
    at.min(bytes.len())
}

// Where the field at `at` ends: at the next separator, or where the line does. Most bytes are above commas, quotes and line ends.
pub fn field_end(bytes: &[u8], at: usize) -> usize
    requires { at ≤ length bytes.now }
    ensures { (result ≡ at + field_len false (line_at bytes.now at)) × (at ≤ result) × (result ≤ length bytes.now) }
{
    let mut quoted = false;
    for i in at..bytes.len() {
        let b = bytes[i];
        if b'-' <= b {
            continue;
        }
        if b == b',' {
            if !quoted {
                return i;
            }
        } else if b == b'"' {
            quoted = !quoted;
        } else if ends_at(bytes, i) {
            return i;
        }
    }
    bytes.len()
}

// Where what stands in the line after `count` fields starts.
pub fn past_fields(bytes: &[u8], at: usize, count: usize) -> usize
    requires { at ≤ length bytes.now }
    ensures { (line_at bytes.now result ≡ after_fields count (line_at bytes.now at)) × (result ≤ length bytes.now) }
{
    let mut i = at;
    for _ in 0..count {
        let end = field_end(bytes, i);
        if bytes.len() <= end || bytes[end] != b',' {
            return end;
        }
        i = end + 1;
    }
    i
}

// The field at `at`, with its quotes.
pub fn first_field(bytes: &[u8], at: usize) -> &[u8]
    requires { at ≤ length bytes.now }
    ensures { result.now ≡ first_field (line_at bytes.now at) }
{
    let end = field_end(bytes, at);
    &bytes[at..end]
}
