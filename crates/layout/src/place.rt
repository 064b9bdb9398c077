// The place in a field, from 1: of the first byte at which no sound field could go on, or one past the end of a field that stops too
// soon; 0 where the field is sound.
ghost use Rattle.std.specs.Prelude.{◌≡◌};
ghost use Rattle.meaning.specs.Place.{place_as};
ghost use Rattle.meaning.specs.Table.{scottish};
ghost use Rattle.layout.specs.Rows.{form_decoded, filled_decoded};

use crate::begins::begins;
use crate::rules::sound_by;

// The place in a field as its row has it.
pub fn place_by(row: u32, f: &[u8]) -> usize
    ensures { result ≡ place_as scottish.text_rule (form_decoded row) (filled_decoded row) f.now }
{
    if sound_by(row, f) {
        return 0;
    }
    for end in 1..=f.len() {
        if !begins(row, &f[..end]) {
            return end;
        }
    }
    f.len() + 1
}
