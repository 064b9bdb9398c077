// What is claimed of the enquiries, which hand back a part of what they were lent.
ghost use Rattle.claims.specs.PartClaims.{FindClaims, ForceClaims, FieldClaims};

use field::field;
use find::find;
use in_force::in_force;

// The line of a street or BLPU.
pub fn found_line<'a>(holding: &'a [u8], kind: u64, number: u64, answer: &mut [u64; 3]) -> &'a [u8]
    ensures { FindClaims holding.entry result kind number answer.new }
{
    find(holding, kind, number, &mut *answer)
}

// The record in force if the file were taken.
pub fn line_in_force<'a>(
    holding: &'a [u8],
    file: &'a [u8],
    kind: u64,
    number: u64,
    answer: &mut [u64; 3],
) -> &'a [u8]
    ensures { ForceClaims holding.entry file.entry result kind number answer.new }
{
    in_force(holding, file, kind, number, &mut *answer)
}

// One field of a line of any bytes.
pub fn given_field<'a>(bytes: &'a [u8], line: u64, number: u64, answer: &mut [u64; 3]) -> &'a [u8]
    ensures { FieldClaims bytes.entry result line number answer.new }
{
    field(bytes, line, number, &mut *answer)
}
