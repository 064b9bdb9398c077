// What is claimed of the program that loads a file.
ghost use Rattle.std.specs.Prelude.{is_some};
ghost use Rattle.program.specs.Outcome.{bytes_of};
ghost use Rattle.claims.specs.PrintClaims.{PrintClaims};

use program::{MOST, print};

// What the program prints: how many bytes, and every byte of the buffer.
pub fn printed(holding: Option<&[u8]>, change: Option<&[u8]>, printed: &mut [u8; MOST]) -> usize
    ensures { PrintClaims (is_some holding.entry) (bytes_of holding.entry) (is_some change.entry) (bytes_of change.entry) printed.old result printed.new }
{
    print(holding, change, &mut *printed)
}
