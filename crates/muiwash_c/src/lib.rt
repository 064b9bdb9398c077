#![tactic(auto)]

// The operations for C, declared in include/muiwash.h: each calls the function of the library muiwash that has its name, its arguments and
// its contract.
//
// A lent slice is a pointer and a length in C; an array of known length is a pointer alone, so C can't lend too short a one by its length.
// tests/header compares these functions with the header.
ghost use Rattle.std.specs.Prelude.{◌≡◌, length};
ghost use Rattle.meaning.specs.Table.{scottish};
ghost use Rattle.meaning.specs.Load.{check_file, check_holding};
ghost use Rattle.meaning.specs.Enquiries.{find, in_force, field_of};
ghost use Rattle.meaning.specs.Answers.{number_list};
ghost use Rattle.answers.specs.Meant.{three_list};
ghost use Rattle.muiwash.specs.Numbers.{part_list, sided_list, Loads};

use answers::numbers::Answer;
use muiwash::{checks, load, parts};

// The check of a file.
#[unsafe(no_mangle)]
pub extern "C" fn muiwash_check_file(file: &[u8], answer: &mut [u64; Answer::NUMBERS])
    ensures { answer.new ≡ number_list (check_file scottish file.now) }
{
    checks::muiwash_check_file(file, &mut *answer);
}

// The check of a holding.
#[unsafe(no_mangle)]
pub extern "C" fn muiwash_check_holding(holding: &[u8], answer: &mut [u64; 3])
    ensures { answer.new ≡ three_list (check_holding scottish holding.now) }
{
    checks::muiwash_check_holding(holding, &mut *answer);
}

// Loads a file into a holding: the new holding and the file's undo, each in its buffer, or zeros in both.
#[unsafe(no_mangle)]
pub extern "C" fn muiwash_load(
    holding: &[u8],
    file: &[u8],
    out: &mut [u8],
    undo: &mut [u8],
    answer: &mut [u64; Answer::NUMBERS],
)
    ensures { Loads holding.now file.now (length out.old) (length undo.old) out.new undo.new answer.new }
{
    load::muiwash_load(holding, file, &mut *out, &mut *undo, &mut *answer);
}

// The line of a street or BLPU in the holding.
#[unsafe(no_mangle)]
pub extern "C" fn muiwash_find(holding: &[u8], kind: u64, number: u64, answer: &mut [u64; 5])
    ensures { answer.new ≡ part_list (find scottish holding.now kind number) }
{
    parts::muiwash_find(holding, kind, number, &mut *answer);
}

// The record in force if the file were taken: a line of the holding or of the file.
#[unsafe(no_mangle)]
pub extern "C" fn muiwash_in_force(
    holding: &[u8],
    file: &[u8],
    kind: u64,
    number: u64,
    answer: &mut [u64; 6],
)
    ensures { answer.new ≡ sided_list (in_force scottish holding.now file.now kind number) }
{
    parts::muiwash_in_force(holding, file, kind, number, &mut *answer);
}

// One field of a line of any bytes.
#[unsafe(no_mangle)]
pub extern "C" fn muiwash_field(bytes: &[u8], line: u64, field: u64, answer: &mut [u64; 5])
    ensures { answer.new ≡ part_list (field_of bytes.now line field) }
{
    parts::muiwash_field(bytes, line, field, &mut *answer);
}
