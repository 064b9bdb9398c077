// The check of a holding: 14 at its lowest faulty line.
ghost use Rattle.std.specs.Prelude.{◌≡◌, IfErr};
ghost use Rattle.meaning.specs.Table.{scottish};
ghost use Rattle.meaning.specs.Load.{check_holding};
ghost use Rattle.answers.specs.Meant.{three_said};

use crate::read::{read_holding, unsound};
use answers::refusal::Refusal;
use layout::limits::Holding;

// The check of a holding. Its refusal names no byte.
pub fn check_holding(holding: &[u8]) -> Result<(), Refusal>
    ensures { (three_said result ≡ check_holding scottish holding.now) × IfErr result (λ refusal. refusal.place ≡ 0) }
{
    let mut starts = [0u64; Holding::MOST_LINES];
    let mut tags = [0u64; Holding::MOST_LINES];
    let mut counts = [0u16; Holding::MOST_LINES];
    read_holding(holding, &mut starts, &mut tags, &mut counts).map_err(unsound)?;
    Ok(())
}
