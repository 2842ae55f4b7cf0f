//! Theorems about the definitions in `specs/TileNames.antt`.
ghost use Rattle.ct_data_tiles.specs.NameAnswers.{NamesDiffer};

/// No two tiles have one name.
#[tactic(auto, using(crate::proofs::NamesRead::names_differ))]
pub fn names()
    ensures differ { NamesDiffer }
{}
