//! The roots of the perfect subtrees of a list of leaves, largest first, wherever they are kept. A caller may pass any number and any
//! hashes: the contracts speak of each list that they represent.
ghost use Rattle.std.specs.Prelude.{◌≡◌, ◌+◌, ◌<◌, ◌≤◌, ℕ, List, [], ◌∷◌, ◌++◌, length, take, drop};
ghost use Rattle.ct_tree.specs.Tree.{mth};
ghost use Rattle.ct_tree.specs.Peaks.{peaks, root_of_peaks};

use crate::hash::{NodeHash, empty_root, node_hash};

/// Takes in a leaf hash after `size` others. It returns how many of the subtrees stay, and the root of the subtree that ends with the leaf
/// and follows them. It hashes as many nodes as `size` has trailing ones in binary.
pub fn with_leaf<H: NodeHash>(
    h: &H,
    subtrees: &[[u8; 32]],
    size: u64,
    leaf_hash: &[u8; 32],
) -> (usize, [u8; 32])
    ensures stays { result.0 ≤ length subtrees.now }
    ensures subtrees { (D : List (List ℕ)) → size ≡ length D → subtrees.now ≡ peaks H.digest D
        → take result.0 subtrees.now ++ result.1 ∷ [] ≡ peaks H.digest (D ++ leaf_hash.now ∷ []) }
{
    let count = subtrees.len();
    if size % 2 == 0 {
        (count, *leaf_hash)
    } else if count == 0 {
        (0, *leaf_hash)
    } else {
        let last = count - 1;
        let both = node_hash(h, &subtrees[last], leaf_hash);
        with_leaf(h, &subtrees[..last], size / 2, &both)
    }
}

// The root of perfect subtrees, largest first.
fn joined<H: NodeHash>(h: &H, subtrees: &[[u8; 32]]) -> [u8; 32]
    requires { 0 < length subtrees.now }
    ensures { result ≡ root_of_peaks H.digest subtrees.now }
{
    let last = subtrees.len() - 1;
    let mut root = subtrees[last];
    for i in (0..last).rev() {
        root = node_hash(h, &subtrees[i], &root);
    }
    root
}

/// The root of the leaves whose perfect subtrees these are (MTH of RFC 6962, section 2.1). It takes no memory, and hashes one node fewer
/// than there are subtrees.
pub fn root_of_subtrees<H: NodeHash>(h: &H, subtrees: &[[u8; 32]]) -> [u8; 32]
    ensures { (D : List (List ℕ)) → subtrees.now ≡ peaks H.digest D → result ≡ mth H.digest D }
{
    if subtrees.is_empty() {
        empty_root(h)
    } else {
        joined(h, subtrees)
    }
}
