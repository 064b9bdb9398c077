// The codes of refusals by name, as the meaning's Codes has them: a contract that names one by its word is met by no other.
ghost use Rattle.std.specs.Prelude.{◌≡◌};
ghost use Rattle.answers.specs.Codes.{code_number};

// Done: nothing is refused.
pub const ALL_DONE: u64 = 0;

// Why something is refused, in the order of the numbers.
#[derive(Clone, Copy, Debug, PartialEq, Eq)]
pub enum Code {
    EndingWrong,
    IdentifierUnknown,
    // Header, metadata or trailer missing or out of place.
    OutOfPlace,
    FieldCountWrong,
    // The lowest field that is malformed.
    FieldMalformed,
    // END_DATE before START_DATE.
    EndBeforeStart,
    // PRO_ORDER is not the running number.
    NotRunningNumber,
    // RECORD_COUNT is wrong.
    RecordCountWrong,
    // A 4,097th body line.
    TooManyBodyLines,
    // Insert of a held key.
    KeyHeld,
    // Update, delete or enquiry of an absent key.
    KeyAbsent,
    // A reference is unmet after a step.
    ReferenceUnmet,
    // The holding before the first step or after one is longer than its buffer.
    HoldingTooLong,
    HoldingUnsound,
    // Enquiry for a kind that no enquiry may name.
    KindNotAsked,
    // An 8,193rd record.
    TooManyRecords,
    // The undo is longer than its output.
    UndoTooLong,
    // Of the program only: an input unreadable or too long.
    InputUnusable,
    // No such line or field.
    NoSuchPart,
}

impl From<Code> for u64 {
    ghost from_gives = { λ code n. n ≡ code_number code };

    fn from(code: Code) -> u64 {
        match code {
            Code::EndingWrong => 1,
            Code::IdentifierUnknown => 2,
            Code::OutOfPlace => 3,
            Code::FieldCountWrong => 4,
            Code::FieldMalformed => 5,
            Code::EndBeforeStart => 6,
            Code::NotRunningNumber => 7,
            Code::RecordCountWrong => 8,
            Code::TooManyBodyLines => 9,
            Code::KeyHeld => 10,
            Code::KeyAbsent => 11,
            Code::ReferenceUnmet => 12,
            Code::HoldingTooLong => 13,
            Code::HoldingUnsound => 14,
            Code::KindNotAsked => 15,
            Code::TooManyRecords => 16,
            Code::UndoTooLong => 17,
            Code::InputUnusable => 18,
            Code::NoSuchPart => 19,
        }
    }
}
