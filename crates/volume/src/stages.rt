// Line 1 is the header, and there is no other. Metadata comes immediately before the trailer; the trailer is last.
ghost use Rattle.std.specs.Prelude.{◌≡◌};
ghost use Rattle.meaning.specs.Kinds.{role};
ghost use Rattle.meaning.specs.File.{next};
ghost use Rattle.layout.specs.Meant.{kind_meant};
ghost use Rattle.volume.specs.Meant.{stage_meant, stage_found};

use layout::kinds::Kind;

// Where a line may stand.
#[derive(Clone, Copy, Debug, PartialEq, Eq)]
pub enum Stage {
    AtStart,
    InBody,
    AfterMetadata,
    AfterTrailer,
}

// The stage after a line of a kind, where it may stand at all: a body line is of a held kind.
#[tactic(auto, using(crate::proofs::LineLaws::nexts), unfolding(meaning::specs::File::next))]
pub fn next_stage(stage: Stage, kind: Kind) -> Option<Stage>
    ensures { stage_found result ≡ next (stage_meant stage) (role (kind_meant kind)) }
{
    match (stage, kind) {
        (Stage::AtStart, Kind::Header) | (Stage::InBody, Kind::Held(_)) => Some(Stage::InBody),
        (Stage::InBody, Kind::Metadata) => Some(Stage::AfterMetadata),
        (Stage::AfterMetadata, Kind::Trailer) => Some(Stage::AfterTrailer),
        _ => None,
    }
}
