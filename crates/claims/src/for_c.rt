// What is claimed of the functions for C.
ghost use Rattle.std.specs.Prelude.{length};
ghost use Rattle.claims.specs.ForC.{FileInC, HoldingInC, LoadInC, FindInC, ForceInC, FieldInC};

use answers::numbers::Answer;
use muiwash::checks::{muiwash_check_file, muiwash_check_holding};
use muiwash::load::muiwash_load;
use muiwash::parts::{muiwash_field, muiwash_find, muiwash_in_force};

// The check of a file.
pub fn checked_file(file: &[u8], answer: &mut [u64; Answer::NUMBERS])
    ensures { FileInC file.now answer.new }
{
    muiwash_check_file(file, &mut *answer);
}

// The check of a holding.
pub fn checked_holding(holding: &[u8], answer: &mut [u64; 3])
    ensures { HoldingInC holding.now answer.new }
{
    muiwash_check_holding(holding, &mut *answer);
}

// Loads a file into a holding.
pub fn loaded(
    holding: &[u8],
    file: &[u8],
    out: &mut [u8],
    undo: &mut [u8],
    answer: &mut [u64; Answer::NUMBERS],
)
    ensures { LoadInC holding.now file.now (length out.old) (length undo.old) out.new undo.new answer.new }
{
    muiwash_load(holding, file, &mut *out, &mut *undo, &mut *answer);
}

// The line of a street or BLPU.
pub fn found_line(holding: &[u8], kind: u64, number: u64, answer: &mut [u64; 5])
    ensures { FindInC holding.now kind number answer.new }
{
    muiwash_find(holding, kind, number, &mut *answer);
}

// The record in force if the file were taken.
pub fn line_in_force(holding: &[u8], file: &[u8], kind: u64, number: u64, answer: &mut [u64; 6])
    ensures { ForceInC holding.now file.now kind number answer.new }
{
    muiwash_in_force(holding, file, kind, number, &mut *answer);
}

// One field of a line of any bytes.
pub fn given_field(bytes: &[u8], line: u64, number: u64, answer: &mut [u64; 5])
    ensures { FieldInC bytes.now line number answer.new }
{
    muiwash_field(bytes, line, number, &mut *answer);
}
