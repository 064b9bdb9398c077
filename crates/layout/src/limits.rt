// The limits on lines, each of the type that it belongs to; those on keys and widths belong to the records.
ghost use Rattle.std.specs.Prelude.{◌≡◌};
ghost use Rattle.meaning.specs.File.{most_body};
ghost use Rattle.meaning.specs.Holding.{most_records};

// A run of body lines on a handset.
#[derive(Drop)]
pub struct Holding {}

impl Holding {
    pub const MOST_LINES: usize = 8192;

    pub fn most_lines() -> usize
        ensures { result ≡ most_records }
    {
        Self::MOST_LINES
    }
}

// One volume of changes.
#[derive(Drop)]
pub struct File {}

impl File {
    pub const MOST_BODY_LINES: usize = 4096;

    pub fn most_body_lines() -> usize
        ensures { result ≡ most_body }
    {
        Self::MOST_BODY_LINES
    }
}
