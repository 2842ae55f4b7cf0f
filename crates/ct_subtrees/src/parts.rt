//! The part of an audit path that is in a subtree, and the part above the subtree.
ghost use Rattle.std.specs.Prelude.{◌≡◌, ◌-◌, ◌<◌, ◌≤◌, List, length, take, drop, fold, IfOk};
ghost use Rattle.ct_tree.specs.Tree.{hash_node};
ghost use Rattle.ct_tree.specs.Lengths.{path_length as path_length_of};
ghost use Rattle.ct_subtrees.specs.Made.{is_perfect as is_perfect_size, is_proof_of_end as is_proof_of_end_at};

use ct_tree::{NodeHash, largest_power_below, node_hash};
use std::alloc::{AllocError, Global};

// Reports whether a tree of `size` leaves is perfect.
fn is_perfect(size: usize) -> bool
    requires { 0 < size }
    ensures { result ≡ is_perfect_size size }
{
    if size == 1 {
        return true;
    }
    let left = largest_power_below(size);
    left == size - left
}

// Reports whether the consistency proof of the subtree is that of the leaves before its end.
pub(crate) fn is_proof_of_end(start: u64, end: u64, n: u64) -> bool
    requires { start < end }
    ensures { result ≡ is_proof_of_end_at start end n }
{
    end < n && !is_perfect((end - start) as usize)
}

// Returns the length of the audit path of the leaf at an index.
fn path_length(index: usize, size: usize) -> usize
    requires { index < size }
    ensures length { result ≡ path_length_of index size }
    ensures small { result < size }
{
    if size == 1 {
        return 0;
    }
    let left = largest_power_below(size);
    if index < left {
        path_length(index, left) + 1
    } else {
        path_length(index - left, size - left) + 1
    }
}

// Returns the part of a path that is in a subtree of `size` leaves, in which the leaf has the index `index`.
pub(crate) fn inside(mut path: Vec<[u8; 32]>, index: u64, size: u64) -> Vec<[u8; 32]>
    requires { index < size }
    ensures { result.items ≡ take (path_length_of index size) path.items }
{
    path.truncate(path_length(index as usize, size as usize));
    path
}

// Returns the part of the path of a subtree's first leaf that is above the subtree, if this has `size` leaves.
pub(crate) fn above(
    alloc: Global,
    path: &[[u8; 32]],
    size: u64,
) -> Result<Vec<[u8; 32]>, AllocError>
    requires { 0 < size }
    ensures { IfOk result (λ rest. rest.items ≡ drop (path_length_of 0 size) path.now) }
{
    let count = path_length(0, size as usize);
    if count >= path.len() {
        return Ok(Vec::new(alloc));
    }
    Vec::from_slice(alloc, &path[count..])
}

// Returns the root of leaves from the hash of the first one and its path, on which each hash is a right one.
pub(crate) fn root_over<H: NodeHash>(h: &H, leaf: &[u8; 32], path: &[[u8; 32]]) -> [u8; 32]
    ensures { result ≡ fold (hash_node H.digest) leaf.now path.now }
{
    let mut root = *leaf;
    for right in path {
        root = node_hash(h, &root, right);
    }
    root
}
