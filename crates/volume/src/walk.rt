// The walk of a file's lines: where it stands, and what is counted so far.
ghost use Rattle.std.specs.Prelude.{◌≡◌, [], ◌+◌, ◌^◌, get_or};
ghost use Rattle.meaning.specs.Lines.{fields_of};
ghost use Rattle.meaning.specs.Kinds.{role};
ghost use Rattle.meaning.specs.Records.{op_of};
ghost use Rattle.layout.specs.Meant.{kind_meant};
ghost use Rattle.layout.specs.Check.{Parted};
ghost use Rattle.volume.specs.Meant.{change_meant};
ghost use Rattle.volume.specs.Walk.{unwalked, walked_on, counted_in, Within};

use crate::lines::{Change, change_noted};
use crate::stages::Stage;
use layout::kinds::Kind;

// The stage and number of the next line, and the body lines before it, with I, U and D.
#[derive(Clone, Copy, Debug, PartialEq, Eq)]
pub struct Walk {
    pub stage: Stage,
    pub line: usize,
    pub body: usize,
    pub inserts: usize,
    pub updates: usize,
    pub deletes: usize,
}

impl Walk {
    // Before the first line nothing is counted.
    pub fn at_start() -> Walk
        ensures { result ≡ unwalked }
    {
        Walk {
            stage: Stage::AtStart,
            line: 1,
            body: 0,
            inserts: 0,
            updates: 0,
            deletes: 0,
        }
    }

    // The walk with one body line more.
    #[tactic(auto, using(crate::proofs::WalkLaws::counts))]
    fn counted(self, change: Change) -> Walk
        requires { Within self (2 ^ 63 + 1) }
        ensures { result ≡ counted_in self (change_meant change) }
    {
        let body = self.body + 1;
        match change {
            Change::Insert => Walk {
                body,
                inserts: self.inserts + 1,
                ..self
            },
            Change::Update => Walk {
                body,
                updates: self.updates + 1,
                ..self
            },
            Change::Delete => Walk {
                body,
                deletes: self.deletes + 1,
                ..self
            },
        }
    }

    // The walk after a sound line of a kind, before a stage: a body line is counted.
    #[tactic(auto, using(crate::proofs::WalkLaws::after))]
    pub fn after(self, kind: Kind, text: &[u8], ends: &[usize], stage: Stage) -> Walk
        requires { Within self (2 ^ 63) × Parted (kind_meant kind) text.now ends.now }
        ensures { result ≡ walked_on self (role (kind_meant kind)) (op_of (get_or (fields_of text.now) 1 [])) stage }
    {
        let after = Walk {
            stage,
            line: self.line + 1,
            ..self
        };
        match kind {
            Kind::Held(_) => after.counted(change_noted(text, ends)),
            Kind::Header | Kind::Metadata | Kind::Trailer => after,
        }
    }
}
