// Find, the record in force, and one field of a line: where the part stands, in numbers, since C takes no part of a slice.
ghost use Rattle.std.specs.Prelude.{◌≡◌};
ghost use Rattle.meaning.specs.Table.{scottish};
ghost use Rattle.meaning.specs.Enquiries.{find, in_force, field_of};
ghost use Rattle.muiwash.specs.Numbers.{part_list, sided_list};

use crate::numbers::{five, sided};
use field::find_field;
use find::find_line;
use in_force::line_in_force;

// The line of a street or BLPU in the holding.
pub fn muiwash_find(holding: &[u8], kind: u64, number: u64, answer: &mut [u64; 5])
    ensures { answer.new ≡ part_list (find scottish holding.now kind number) }
{
    *answer = five(find_line(holding, kind, number));
}

// The record in force if the file were taken: a line of the holding or of the file.
pub fn muiwash_in_force(holding: &[u8], file: &[u8], kind: u64, number: u64, answer: &mut [u64; 6])
    ensures { answer.new ≡ sided_list (in_force scottish holding.now file.now kind number) }
{
    *answer = sided(line_in_force(holding, file, kind, number));
}

// One field of a line of any bytes.
pub fn muiwash_field(bytes: &[u8], line: u64, field: u64, answer: &mut [u64; 5])
    ensures { answer.new ≡ part_list (field_of bytes.now line field) }
{
    *answer = five(find_field(bytes, line, field));
}
