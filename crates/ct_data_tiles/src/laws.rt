//! Laws of the format, each the contract of a function that does nothing.

ghost use Rattle.ct_data_tiles.specs.Laws.{TileLeavesStandApart, SignedTimestampsAreHeld, TileLeavesHaveOneFault, TileLeafTextsHaveNoFault, DataTilesStandApart, DataTilesHaveOneFault, DataTilesHaveNoFault};

/// Each tile leaf has one text, and no text is the beginning of another. So each leaf that was written is read again, and the leaves of a
/// tile are found one after the other.
#[tactic(auto, using(crate::proofs::Apart::tile_leaves_stand_apart))]
pub fn tile_leaves_stand_apart()
    ensures { TileLeavesStandApart }
{}

/// The bytes that are signed for a certificate timestamp with the extensions of a tile leaf are the bytes of the tree's leaf that it holds.
#[tactic(auto, using(crate::proofs::Apart::signed_timestamps_are_held))]
pub fn signed_timestamps_are_held()
    ensures { SignedTimestampsAreHeld }
{}

/// No bytes have two faults as a tile leaf, so `tile_leaf_at` returns a fault if and only if the bytes have it.
pub fn tile_leaves_have_one_fault()
    ensures { TileLeavesHaveOneFault }
{}

/// Bytes that begin with a tile leaf have no fault, so nothing that was written is ever refused.
pub fn tile_leaf_texts_have_no_fault()
    ensures { TileLeafTextsHaveNoFault }
{}

/// No bytes are two data tiles: the leaves that are read are those that were written.
#[tactic(auto, using(crate::proofs::Tiles::data_tiles_stand_apart))]
pub fn data_tiles_stand_apart()
    ensures { DataTilesStandApart }
{}

/// No bytes have two faults as a data tile, so `tile_leaves` returns a fault, and the index of its leaf, if and only if the bytes have it.
#[tactic(auto, using(crate::proofs::Tiles::data_tiles_have_one_fault))]
pub fn data_tiles_have_one_fault()
    ensures { DataTilesHaveOneFault }
{}

/// The bytes of a data tile have no fault, so only a lack of memory can prevent reading them.
#[tactic(auto, using(crate::proofs::Tiles::data_tiles_have_no_fault))]
pub fn data_tiles_have_no_fault()
    ensures { DataTilesHaveNoFault }
{}
