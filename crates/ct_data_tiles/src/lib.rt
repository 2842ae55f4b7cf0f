//! The data tiles of a log (C2SP static-ct-api, "Log Entries"), and the names of all its tiles: this crate writes and reads the leaves of
//! data tiles, adds entries to them, and checks them for a reader.
//!
//! - A [`TileLeaf`] is a leaf in the form that a data tile has it: the TimestampedEntry of RFC 6962 section 3.4, the precertificate if the
//!   entry is one, and the SHA-256 fingerprints of the chain's issuers. Its parts are borrowed from the bytes that were read or submitted,
//!   and nothing is copied.
//! - [`tile_leaf_of`] makes a tile leaf of a submission, [`push_tile_leaf`] writes it, [`tile_leaf_at`] reads it from the front of bytes,
//!   and [`leaf_input`] returns the bytes of the tree's leaf, from which the leaf hash is computed.
//! - [`tile_leaves`] reads a whole data tile, and reports the first fault with the index of its leaf. [`count_tile_leaves`] only counts the
//!   leaves, without memory.
//! - [`add_entries`], for the writer, adds texts to a partial tile, and returns a [`DataRow`]: the tiles that become full, and the partial
//!   one after them. No tree hash covers all of an entry's text, since only that text contains the precertificate and the fingerprints. So
//!   the contract holds for any bytes, and for every list of texts whose partial tile was given.
//! - [`compare_data_tile`], for the reader, takes the name and the bytes of a data tile, and the index of the next entry that is requested.
//!   It reports that the tile begins after it, ends before it, or is damaged, and where. It also reports the first entry from that one on
//!   whose extensions are not exactly its own index. [`tile_leaves`] returns the entries.
//!
//! The extensions are any bytes. [`leaf_index`] reads the index if they contain exactly an index. So a leaf with an extension of a later
//! version is read and hashed like any other.
//!
//! # The names of tiles
//!
//! A tile of hashes is named `tile/<L>/<N>[.p/<W>]` (C2SP tlog-tiles, "Merkle Tree"), and a data tile `tile/data/<N>[.p/<W>]` (C2SP
//! static-ct-api, "Log Entries").
//!
//! - [`Tile`] describes a tile by its content ([`Content`]), its index and its width.
//! - [`Tile::name`] writes a name, and [`Tile::from_name`] reads one. Both are exact: each name that is written can be read, and each text
//!   that is read is the name of the tile that is returned.
//! - [`name_laws`] proves that no two tiles have the same name.
//!
//! # The entries as bytes
//!
//! The entries of a data tile are also written in the presentation language of RFC 5246 (section 4).
//!
//! - [`tile_entries_text`] writes for each entry the bytes of the tree's leaf, which are hashed. It also writes the offsets in the tile of
//!   the submitted certificate or precertificate, and of the fingerprints of the issuers.
//! - The functions of [`bytes_laws`] do nothing. Their contracts say that the tile has these parts at these offsets.
//!
//! `specs/TileEntries.antt` defines these bytes.
#![tactic(auto)]

mod answer;
pub mod bytes_laws;
mod data_tile;
mod entries;
mod entry_bytes;
mod fault;
mod index;
pub mod laws;
mod leaf;
pub mod name_laws;
mod name_reading;
mod name_writing;
mod reading;
mod row;
mod tile;
mod unwritten;
mod wanting;
mod writing;

pub use answer::{Damage, DataTileAnswer};
pub use data_tile::{count_tile_leaves, tile_leaves};
pub use entries::compare_data_tile;
pub use entry_bytes::tile_entries_text;
pub use fault::{DataTileFault, TileFault};
pub use index::leaf_index;
pub use leaf::{TileLeaf, tile_leaf_of};
pub use reading::tile_leaf_at;
pub use row::{DataRow, add_entries};
pub use tile::{Content, NameFault, Tile};
pub use writing::{leaf_input, push_tile_leaf};
