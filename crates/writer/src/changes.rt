// How a change is written, and how it is taken back.
ghost use Rattle.std.specs.Prelude.{◌≡◌, [], ◌∷◌};
ghost use Rattle.theory.specs.Step.{inv};
ghost use Rattle.meaning.specs.Records.{letter};
ghost use Rattle.volume.specs.Meant.{change_meant};

use volume::lines::Change;

// The letter of CHANGE_TYPE, which stands in quotes.
pub fn letter(change: Change) -> u8
    ensures { 34 ∷ (result ∷ (34 ∷ [])) ≡ letter (change_meant change) }
{
    match change {
        Change::Insert => b'I',
        Change::Update => b'U',
        Change::Delete => b'D',
    }
}

// The change that takes a change back.
pub fn inverse(change: Change) -> Change
    ensures { change_meant result ≡ inv (change_meant change) }
{
    match change {
        Change::Insert => Change::Delete,
        Change::Update => Change::Update,
        Change::Delete => Change::Insert,
    }
}
