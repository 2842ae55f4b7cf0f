//! The tiles of a log (C2SP tlog-tiles): the tree as files of 256 hashes, which never change once they are full, for the writer and for
//! readers.
//!
//! Level 0 of a log has the hashes of its leaves. Each full tile of a level has one hash in the level above: the root of its 256 hashes. If
//! a level's last tile has fewer than 256 hashes, it is the level's partial tile.
//!
//! - [`Edge`] is all that a sequencer keeps of a log: its number of leaves, and the partial tile of each level.
//! - [`take_in`] adds more leaf hashes, and returns the tiles that must be written, a [`Row`] for each level, and the new edge.
//! - [`joined`] and [`root_alone`] compute a root from partial tiles, level by level, as [`Edge::root`] does.
//! - [`laws`] contains theorems about the definitions in `specs/Tiles.antt`, which the contracts name.
//!
//! A log is a list of leaf hashes, the leftmost first. Levels and indexes begin at 0, and sizes count leaves.
//!
//! # The reader
//!
//! A reader computes roots, audit paths and consistency proofs from tiles, which may come from anywhere.
//!
//! - [`TileSource`] is the source of the tiles. It has no requirements.
//! - [`root_at`], [`path`] and [`proof`] return MTH, PATH and PROOF of RFC 6962 for each list whose tiles were given.
//! - `tiles_for_root`, `tiles_for_path` and `tiles_for_proof` list the tiles that these read, each as a [`NeededTile`].
//! - [`root_of_handed`], [`path_of_handed`] and [`proof_of_handed`] take the bytes of these tiles, in that order. They refuse a missing
//!   tile, and one of the wrong length, and name it. [`HandedTiles`] makes a source of such tiles.
//! - [`checked_path`] returns only a path that leads to a root that the caller has, and [`checked_proof`] only a proof between two such
//!   roots.
#![tactic(auto)]

mod checked;
mod edge;
mod from_handed;
mod handed;
pub mod laws;
mod needed;
mod row;
mod source;
mod walk;

pub use checked::{checked_path, checked_proof};
pub use edge::{Advance, Edge, take_in};
pub use from_handed::{path_of_handed, proof_of_handed, root_of_handed};
pub use handed::{HandedFault, HandedTiles};
pub use needed::{NeededTile, tiles_for_path, tiles_for_proof, tiles_for_root};
pub use row::{Row, joined, root_alone};
pub use source::TileSource;
pub use walk::{path, proof, root_at};
