// How long the content of an entry's record is.
ghost use Rattle.std.specs.Prelude.{◌≡◌, ◌≤◌, max, length};
ghost use Rattle.entries.specs.Entries.{record_of};

use crate::record::{line_of, record_content};

pub fn entry_length(holding: &[u8], file: &[u8], entry: u64) -> usize
    ensures { (result ≡ length (record_of holding.now file.now entry).content) × (result ≤ max (length holding.now) (length file.now)) }
{
    let (bytes, at) = line_of(holding, file, entry);
    record_content(bytes, at).len()
}
