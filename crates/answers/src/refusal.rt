// What is wrong with a line, and a refusal: a fault at a line.
ghost use Rattle.std.specs.Prelude.{◌≡◌};
ghost use Rattle.meaning.specs.Answers.{of_line, of_field, of_byte, at_line, alone};
ghost use Rattle.answers.specs.Codes.{code_number};
ghost use Rattle.answers.specs.Meant.{fault_meant, refusal_meant};

use crate::codes::Code;

// A line's first fault: its code, its field and the place in that field, or 0 where it is of no one field or byte.
#[derive(Clone, Copy, Debug, PartialEq, Eq)]
pub struct Fault {
    pub code: Code,
    pub field: u64,
    pub place: u64,
}

impl Fault {
    // A fault of no one field.
    pub fn of_line(code: Code) -> Fault
        ensures { fault_meant result ≡ of_line (code_number code) }
    {
        Self::of_field(code, 0)
    }

    // A fault of one field.
    pub fn of_field(code: Code, field: u64) -> Fault
        ensures { fault_meant result ≡ of_field (code_number code) field }
    {
        Self::of_byte(code, field, 0)
    }

    // A fault of one byte of a field.
    pub fn of_byte(code: Code, field: u64, place: u64) -> Fault
        ensures { fault_meant result ≡ of_byte (code_number code) field place }
    {
        Fault { code, field, place }
    }
}

// Code, line, field and place of what is refused.
#[derive(Clone, Copy, Debug, PartialEq, Eq)]
pub struct Refusal {
    pub code: Code,
    pub line: u64,
    pub field: u64,
    pub place: u64,
}

impl Refusal {
    // A fault at a line.
    pub fn at(line: u64, fault: Fault) -> Refusal
        ensures { refusal_meant result ≡ at_line line (fault_meant fault) }
    {
        Refusal {
            code: fault.code,
            line,
            field: fault.field,
            place: fault.place,
        }
    }

    // A line that is refused as a whole.
    pub fn of_line(line: u64, code: Code) -> Refusal
        ensures { refusal_meant result ≡ at_line line (of_line (code_number code)) }
    {
        Self::at(line, Fault::of_line(code))
    }

    // A refusal that names no line.
    pub fn alone(code: Code) -> Refusal
        ensures { refusal_meant result ≡ alone (code_number code) }
    {
        Self::of_line(0, code)
    }
}
