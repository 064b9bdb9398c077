// The last line of a file that names a key, and what it does to the record there.
ghost use Rattle.std.specs.Prelude.{◌≡◌, ◌≤◌, length};
ghost use Rattle.meaning.specs.Lines.{lines_of};
ghost use Rattle.volume.specs.Meant.{change_meant};
ghost use Rattle.keys.specs.Numbers.{key_list};
ghost use Rattle.entries.specs.Entries.{line_at};
ghost use Rattle.in_force.specs.declared.naming.Naming.TheVariants.{Unnamed};
ghost use Rattle.in_force.specs.Naming.{said_by, named_by, later_of, last_named};

use entries::key::record_key;
use entries::references::is_same_key;
use keys::Key;
use text::lines::line_end;
use volume::lines::{Change, change_of};

// What lines say of a key: nothing, or by the last that names it that its record is deleted, or stands on that line.
#[derive(Clone, Copy, Debug, PartialEq, Eq)]
pub enum Naming {
    Unnamed,
    Deleted,
    Named(u64),
}

// What a line with a change says of the key that it names.
fn said(line: u64, change: Change) -> Naming
    ensures { result ≡ said_by line (change_meant change) }
{
    match change {
        Change::Insert | Change::Update => Naming::Named(line),
        Change::Delete => Naming::Deleted,
    }
}

// What the line that starts at `at` says of a key.
fn named_at(file: &[u8], at: usize, line: u64, key: Key) -> Naming
    requires { at ≤ length file.now }
    ensures { result ≡ named_by (key_list key) line (line_at file.now at) }
{
    if !is_same_key(key, record_key(file, at)) {
        return Naming::Unnamed;
    }
    let end = line_end(file, at);
    said(line, change_of(&file[at..end]))
}

// A later line that names the key takes the place of those before it.
fn later(before: Naming, here: Naming) -> Naming
    ensures { result ≡ later_of before here }
{
    match here {
        Naming::Unnamed => before,
        Naming::Deleted | Naming::Named(_) => here,
    }
}

// What the lines of a file say of a key; a header, metadata or trailer has no street's or BLPU's key.
pub fn last_naming(file: &[u8], key: Key) -> Naming
    ensures { result ≡ last_named (key_list key) 1 (lines_of file.now) Unnamed }
{
    let mut last = Naming::Unnamed;
    let mut at = 0;
    let mut line = 1;
    while at < file.len() {
        last = later(last, named_at(file, at, line, key));
        at = line_end(file, at) + 2;
        line += 1;
    }
    last
}
