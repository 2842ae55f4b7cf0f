//! The two halves of a list of leaves and of the path that belongs to one of them.
ghost use Rattle.std.specs.Prelude.{◌≡◌, ◌+◌, ◌-◌, ◌*◌, ◌<◌, ◌≤◌, ◌^◌, ℕ, List, [], ◌∷◌, ◌++◌, length, map};
ghost use Rattle.ct_tree.specs.Tree.{mth_of_leaves};

use ct_tree::{NodeHash, largest_power_below, leaf_hash, node_hash};

// The root of a list of leaves, each hashed once.
pub(crate) fn root_of_leaves<H: NodeHash>(h: &H, leaves: &[Vec<u8>]) -> [u8; 32]
    ensures { result ≡ mth_of_leaves H.digest (map (λ l. l.items) leaves.now) }
{
    if leaves.is_empty() {
        h.hash(&[])
    } else if leaves.len() == 1 {
        leaf_hash(h, &leaves[0])
    } else {
        let middle = largest_power_below(leaves.len());
        let left = root_of_leaves(h, &leaves[..middle]);
        let right = root_of_leaves(h, &leaves[middle..]);
        node_hash(h, &left, &right)
    }
}

// The last element of a path, which is nearest the root, and the ones before it.
pub(crate) fn last_and_rest(path: &[[u8; 32]]) -> ([u8; 32], &[[u8; 32]])
    ensures parts { 0 < length path.now → path.now ≡ result.1.now ++ result.0 ∷ [] }
    ensures length { length result.0 ≡ 32 }
{
    match path.split_last() {
        Some((last, rest)) => (*last, rest),
        None => ([0; 32], path),
    }
}
