//! The relation of a data tile to the entries of a log that a client has read so far.

use crate::fault::TileFault;

/// The reason why the bytes are not the data tile of that name: the first reason in this order.
#[derive(Clone, Copy, Debug, PartialEq, Eq)]
pub enum Damage {
    /// The name is not that of a data tile (C2SP static-ct-api, "Log Entries").
    NoDataTile,
    /// At this index in the tile, which begins at 0, there is no leaf.
    AtLeaf(usize, TileFault),
    /// It has this number of leaves, which differs from the number in its name.
    OtherCount(usize),
}

/// The relation of a data tile to the entries of a log that a client has read up to an index.
#[derive(Clone, Copy, Debug)]
pub enum DataTileAnswer {
    /// It begins after the next entry, so the entries between are missing.
    Gap,
    /// It ends before the next entry, so nothing in it is new.
    Known,
    /// It is not the data tile of that name.
    Damaged(Damage),
    /// It contains the next entry. The value is the first index in the log, from that entry on, whose entry does not have exactly this index
    /// in its extensions (leaf_index, C2SP static-ct-api), or none. A log that publishes such an entry violates the specification.
    Entries(Option<u64>),
}
