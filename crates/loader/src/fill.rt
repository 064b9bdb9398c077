// A buffer is filled: its result, then zeros to its end.
ghost use Rattle.std.specs.Prelude.{◌≡◌, true, ◌≤◌, leb, length};
ghost use Rattle.meaning.specs.Holding.{written};
ghost use Rattle.meaning.specs.Load.{then_zeros};
ghost use Rattle.places.specs.Places.{says};
ghost use Rattle.trial.specs.Trial.{undo_text};
ghost use Rattle.loader.specs.Lent.{Lent};

use crate::undo::put_undo;
use text::put;
use writer::runs::write_holding;

// With the new holding.
pub fn fill_holding(out: &mut [u8], holding: &[u8], file: &[u8], places: &[u64], count: usize)
    requires { (count ≤ length places.now) × (length (written (says holding.now file.now places.now count)) ≤ length out.old) }
    ensures { out.new ≡ then_zeros (length out.old) (written (says holding.now file.now places.now count)) }
{
    let end = write_holding(&mut *out, holding, file, places, count);
    put::zeros(&mut out[end..]);
}

// With the undo, where it fits; whether it does.
pub fn fill_undo(
    out: &mut [u8],
    holding: &[u8],
    file: &[u8],
    steps: &[u64],
    before: &[u64],
    count: usize,
    end: usize,
) -> bool
    requires { (count ≤ length steps.now) × Lent file.now before.now count end }
    ensures { (result ≡ leb (length (undo_text holding.now file.now steps.now before.now count end)) (length out.old))
        × (result ≡ true → out.new ≡ then_zeros (length out.old) (undo_text holding.now file.now steps.now before.now count end)) }
{
    let Some(used) = put_undo(&mut *out, holding, file, steps, before, count, end) else {
        return false;
    };
    put::zeros(&mut out[used..]);
    true
}
