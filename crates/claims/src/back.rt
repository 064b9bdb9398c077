// What is claimed of a file that is taken and handed back.
ghost use Rattle.std.specs.Prelude.{length};
ghost use Rattle.loader.specs.Outcome.{Outcome};
ghost use Rattle.printed.specs.Printed.{bare};
ghost use Rattle.claims.specs.BackClaims.{BackClaims};

use answers::numbers::Answer;
use loader::load;
use printed::bare::bare_length;

// What load answered to a file, and to its undo.
#[derive(Clone, Copy, Debug, PartialEq, Eq)]
pub struct Returned {
    pub taken: Answer,
    pub back: Answer,
}

// Loads a file into a holding, each of them what stands before the zeros of a buffer.
fn hand_in(left: &[u8], undone: &[u8], old: &mut [u8], again: &mut [u8]) -> Answer
    ensures { Outcome (bare left.now) (bare undone.now) (length old.old) (length again.old) result old.new again.new }
{
    let n = bare_length(left);
    let m = bare_length(undone);
    Answer::from(load(&left[0..n], &undone[0..m], &mut *old, &mut *again))
}

// Loads a file, and hands the undo that this leaves in over the holding that it leaves.
pub fn handed_back(
    holding: &[u8],
    file: &[u8],
    new: &mut [u8],
    undone: &mut [u8],
    old: &mut [u8],
    again: &mut [u8],
) -> Returned
    ensures { BackClaims holding.now file.now (length new.old) (length old.old) (length again.old)
        result.taken result.back old.new again.new }
{
    let taken = Answer::from(load(holding, file, &mut *new, &mut *undone));
    let back = hand_in(&*new, &*undone, &mut *old, &mut *again);
    Returned { taken, back }
}
