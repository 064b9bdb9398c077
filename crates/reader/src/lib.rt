#![tactic(auto)]

// A reader that holds the lent file and its place hands out one line after another: it is an iterator over the lines.
ghost use Rattle.std.specs.Prelude.{◌≡◌, drop};
ghost use Rattle.std.specs.Iterator.{YieldsFirstBy, item_count};
ghost use Rattle.text.specs.Parts.{StandsIn};
ghost use Rattle.text.specs.Places.{line_len};
ghost use Rattle.reader.specs.Reading.{start_in, next_line, lines_left};

use text::lines::line_end;
use text::parts::part;

// The lent file, and where the next line starts.
#[derive(Drop)]
pub struct Reader<'a> {
    pub file: &'a [u8],
    pub at: usize,
}

impl<'a> Reader<'a> {
    // A reader at a place of a file.
    pub fn new(file: &'a [u8], at: usize) -> Reader<'a>
        ensures { (result.file ≡ file.entry) × (result.at ≡ at) }
    {
        Reader { file, at }
    }

    // The line that the reader stands at, without its ending; past the end, an empty part.
    pub fn line(&self) -> &'a [u8]
        ensures { StandsIn result self.now.file (start_in self.now.file.now self.now.at) (line_len (drop self.now.at self.now.file.now)) }
    {
        if self.file.len() < self.at {
            return part(self.file, 0, 0);
        }
        part(self.file, self.at, line_end(self.file, self.at))
    }

    // Goes on to where the next line starts; past the last line, to the end of the bytes.
    pub fn advance(&mut self)
        ensures { (self.new.file ≡ self.old.file) × (self.new.at ≡ next_line self.old.file.now self.old.at) }
    {
        let size = self.file.len();
        if size < self.at {
            self.at = size;
            return;
        }
        let end = line_end(self.file, self.at);
        self.at = if end < size { end + 2 } else { end };
    }
}

impl<'a> Iterator for Reader<'a> {
    type Item = &'a [u8];

    ghost next_gives = { YieldsFirstBy (λ line. line.now) (λ r. lines_left r.file.now r.at) };

    ghost remaining = { item_count (λ r. lines_left r.file.now r.at) };

    fn next(&mut self) -> Option<&'a [u8]> {
        if self.file.len() <= self.at {
            return None;
        }
        let line = self.line();
        self.advance();
        Some(line)
    }
}
