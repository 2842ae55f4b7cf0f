//! The source of a reader's tiles, and the nodes of the tree that are in the tiles or between them.
ghost use Rattle.std.specs.Prelude.{◌≡◌, ◌+◌, ◌*◌, ◌^◌, ◌<◌, ◌≤◌, ℕ, List, length};
ghost use Rattle.ct_tree.specs.Levels.{subtree};
ghost use Rattle.ct_tiles.specs.Given.{GivesNodeOf};

use ct_tree::walk::NodeSource;
use ct_tree::{NodeHash, node_hash};

/// Tiles from anywhere. They have no requirements: each contract holds for every list of leaves whose tiles they are. If a proof was
/// computed from other tiles, `ct_verify` refuses it.
pub trait TileSource {
    // The hash that the source has for an index of a level.
    ghost given: { Self → ℕ → ℕ → List ℕ };

    /// Returns the hash at an index of a level, or any 32 bytes if the source does not have it.
    fn hash(&self, level: u64, index: u64) -> [u8; 32]
        ensures { result ≡ given self.now level index };
}

// Returns the root of the perfect subtree of 2^level leaves at an index of its level, if the subtree ends before the last of `size` leaves.
fn node<H: NodeHash, T: TileSource>(h: &H, tiles: &T, size: u64, level: u64, index: u64) -> [u8; 32]
    requires { (index + 1) * 2 ^ level < size }
    ensures { (D : List (List ℕ)) → GivesNodeOf H.digest (T.given tiles.now) D level index → result ≡ subtree H.digest level index D }
{
    if level % 8 == 0 {
        return tiles.hash(level / 8, index);
    }
    let left = node(h, tiles, size, level - 1, 2 * index);
    let right = node(h, tiles, size, level - 1, 2 * index + 1);
    node_hash(h, &left, &right)
}

// Tiles as the nodes of a tree of at most `size` leaves.
#[derive(Drop)]
pub(crate) struct TileNodes<'a, T: TileSource> {
    pub(crate) tiles: &'a T,
    pub(crate) size: u64,
}

impl<'a, H: NodeHash, T: TileSource> NodeSource<H> for TileNodes<'a, T> {
    ghost covers = { λ s. s.size };

    ghost gives = { λ s. GivesNodeOf H.digest (T.given s.tiles.now) };

    fn leaf_at(&self, index: u64) -> [u8; 32] {
        self.tiles.hash(0, index)
    }

    fn node_at(&self, h: &H, level: u64, index: u64) -> [u8; 32] {
        node(h, self.tiles, self.size, level, index)
    }
}
