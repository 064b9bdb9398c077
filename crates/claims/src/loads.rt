// What is claimed of loading a file.
ghost use Rattle.std.specs.Prelude.{length};
ghost use Rattle.claims.specs.LoadClaims.{LoadClaims};

use answers::numbers::Answer;
use loader::load;

// Loads a file into a holding.
pub fn loaded(holding: &[u8], file: &[u8], out: &mut [u8], undo: &mut [u8]) -> Answer
    ensures { LoadClaims holding.now file.now (length out.old) (length undo.old) result out.new undo.new }
{
    Answer::from(load(holding, file, &mut *out, &mut *undo))
}
