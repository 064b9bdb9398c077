// A part of what was lent, handed back as it stands there.
ghost use Rattle.std.specs.Prelude.{◌≤◌, ◌-◌, length};
ghost use Rattle.text.specs.Parts.{StandsIn};

// The bytes from a up to e.
pub fn part<'a>(s: &'a [u8], a: usize, e: usize) -> &'a [u8]
    requires { (a ≤ e) × (e ≤ length s.now) }
    ensures { StandsIn result s.entry a (e - a) }
{
    &s[a..e]
}
