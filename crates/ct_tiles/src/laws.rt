//! Theorems about the definitions in `specs/Tiles.antt`. Each is a clause of a function that does nothing.
ghost use Rattle.ct_tiles.specs.Laws.{TilesStay, RowIsTiles, RowBeginsBefore};
ghost use Rattle.ct_tiles.specs.Words.{LevelHasLength, HashIsMth};

/// - `stay`: a tile's hashes do not change when the log grows, so a full tile never changes.
/// - `row`: a row has the tiles from its first one on.
/// - `begins`: a row begins no later than the first new hash.
#[tactic(auto, using(crate::proofs::Stays::tiles_stay, crate::proofs::Stays::row_is_tiles, crate::proofs::Stays::row_begins_before))]
pub fn tiles()
    ensures stay { TilesStay }
    ensures row { RowIsTiles }
    ensures begins { RowBeginsBefore }
{}

/// The hashes of a level as RFC 6962, section 2.1, defines them: for n leaves level l has n / 256^l hashes, and the one at index i is
/// MTH(D[256^l * i : 256^l * (i + 1)]).
#[tactic(auto, using(crate::proofs::Words::level_has_length, crate::proofs::Words::hash_is_mth))]
pub fn level()
    ensures length { LevelHasLength }
    ensures hash { HashIsMth }
{}
