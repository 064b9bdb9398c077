// What is claimed of the two checks.
ghost use Rattle.claims.specs.CheckClaims.{FileClaims, HoldingClaims};

use answers::numbers::{Answer, Verdict};
use holding::check::check_holding;
use volume::check::check_file;

// The check of a file.
pub fn checked_file(file: &[u8]) -> Answer
    ensures { FileClaims file.now result }
{
    Answer::from(check_file(file))
}

// The check of a holding.
pub fn checked_holding(holding: &[u8]) -> Verdict
    ensures { HoldingClaims holding.now result }
{
    Verdict::from(check_holding(holding))
}
