// The numbers of an answer, made of what is taken or refused, and nowhere else.
ghost use Rattle.std.specs.Prelude.{◌≡◌};
ghost use Rattle.answers.specs.Meant.{answer_said, answer_list, verdict_said, verdict_list};

use crate::codes::ALL_DONE;
use crate::refusal::Refusal;

// The body lines with I, U and D of a file that is taken, or sound.
#[derive(Clone, Copy, Debug, PartialEq, Eq)]
pub struct Counts {
    pub inserts: u64,
    pub updates: u64,
    pub deletes: u64,
}

// Code, line, field, the body lines with I, U and D, and the place.
#[derive(Clone, Copy, Debug, PartialEq, Eq)]
pub struct Answer {
    pub code: u64,
    pub line: u64,
    pub field: u64,
    pub inserts: u64,
    pub updates: u64,
    pub deletes: u64,
    pub place: u64,
}

impl Answer {
    // How many numbers there are.
    pub const NUMBERS: usize = 7;
}

// A file that is taken, or sound, has its body lines counted; a refusal counts nothing.
impl From<Result<Counts, Refusal>> for Answer {
    ghost from_gives = { λ outcome answer. answer ≡ answer_said outcome };

    fn from(outcome: Result<Counts, Refusal>) -> Answer {
        match outcome {
            Ok(counts) => Answer {
                code: ALL_DONE,
                line: 0,
                field: 0,
                inserts: counts.inserts,
                updates: counts.updates,
                deletes: counts.deletes,
                place: 0,
            },
            Err(refusal) => Answer {
                code: u64::from(refusal.code),
                line: refusal.line,
                field: refusal.field,
                inserts: 0,
                updates: 0,
                deletes: 0,
                place: refusal.place,
            },
        }
    }
}

// Code, line, field.
#[derive(Clone, Copy, Debug, PartialEq, Eq)]
pub struct Verdict {
    pub code: u64,
    pub line: u64,
    pub field: u64,
}

// Three zeros where nothing is refused.
impl From<Result<(), Refusal>> for Verdict {
    ghost from_gives = { λ outcome verdict. verdict ≡ verdict_said outcome };

    fn from(outcome: Result<(), Refusal>) -> Verdict {
        match outcome {
            Ok(()) => Verdict {
                code: ALL_DONE,
                line: 0,
                field: 0,
            },
            Err(refusal) => Verdict {
                code: u64::from(refusal.code),
                line: refusal.line,
                field: refusal.field,
            },
        }
    }
}

// The numbers in their order, as C reads them and as they are printed.
pub fn in_order(answer: Answer) -> [u64; Answer::NUMBERS]
    ensures { result ≡ answer_list answer }
{
    [
        answer.code,
        answer.line,
        answer.field,
        answer.inserts,
        answer.updates,
        answer.deletes,
        answer.place,
    ]
}

// The three in their order.
pub fn three(verdict: Verdict) -> [u64; 3]
    ensures { result ≡ verdict_list verdict }
{
    [verdict.code, verdict.line, verdict.field]
}
