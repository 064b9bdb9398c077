// The kinds of record that a holding has: they are the body lines of a file.
#[derive(Clone, Copy, Debug, PartialEq, Eq)]
pub enum HeldKind {
    Street,
    StreetXref,
    Blpu,
    AppXref,
    Lpi,
}

// The records that the loader knows: those that are held, and three that are a line of every file.
#[derive(Clone, Copy, Debug, PartialEq, Eq)]
pub enum Kind {
    Header,
    Held(HeldKind),
    Metadata,
    Trailer,
}
