// Loading a file, with its undo.
ghost use Rattle.std.specs.Prelude.{length};
ghost use Rattle.muiwash.specs.Numbers.{Loads};

use answers::numbers::{Answer, in_order};
use loader::load;

// Loads a file into a holding: the new holding and the file's undo, each in its buffer, or zeros in both.
pub fn muiwash_load(
    holding: &[u8],
    file: &[u8],
    out: &mut [u8],
    undo: &mut [u8],
    answer: &mut [u64; Answer::NUMBERS],
)
    ensures { Loads holding.now file.now (length out.old) (length undo.old) out.new undo.new answer.new }
{
    let loaded = load(holding, file, &mut *out, &mut *undo);
    *answer = in_order(Answer::from(loaded));
}
