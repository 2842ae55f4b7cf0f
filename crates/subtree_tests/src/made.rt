// The hash, the proof and the paths of each subtree of small trees, from nodes and from tiles. The verifiers must accept them, and the hash must be
// that of the RFC's recursion over the leaves.

use ct_subtrees::{
    evaluate_subtree_inclusion, is_subtree, subtree_hash, subtree_hash_of_handed, subtree_path,
    subtree_path_of_handed, subtree_proof, subtree_proof_of_handed, tiles_for_subtree_path,
    tiles_for_subtree_proof, verify_subtree_consistency,
};
use ct_tiles::NeededTile;
use ct_tree::reference::root;
use ct_tree::{Nodes, Sha256Hash, leaf_hash};
use std::alloc::{AllocError, Global};

// The number of leaves of the largest tree.
const LARGEST: u64 = 20;

// Returns the nodes of `size` different leaves.
fn nodes_of(alloc: Global, size: u64) -> Result<Nodes<Sha256Hash>, AllocError> {
    let mut nodes = Nodes::new(alloc, Sha256Hash);
    for i in 0..size {
        nodes.push(&leaf_hash(&Sha256Hash, &i.to_be_bytes()))?;
    }
    Ok(nodes)
}

// Returns the leaf hashes of the nodes.
fn leaves_of(alloc: Global, nodes: &Nodes<Sha256Hash>) -> Result<Vec<[u8; 32]>, AllocError> {
    let mut leaves = Vec::new(alloc);
    for i in 0..nodes.size() {
        leaves.push(nodes.leaf(i))?;
    }
    Ok(leaves)
}

// Returns the only tile of a tree of at most 255 leaves.
fn tile_of(alloc: Global, leaves: &[[u8; 32]]) -> Result<Vec<Vec<u8>>, AllocError> {
    let mut tile = Vec::new(alloc);
    for leaf in leaves {
        tile.extend_from_slice(leaf)?;
    }
    let mut tiles = Vec::new(alloc);
    tiles.push(tile)?;
    Ok(tiles)
}

// Reports whether these are the names of that tile.
fn is_only_tile(tiles: &[NeededTile], width: u64) -> bool {
    let only = NeededTile {
        level: 0,
        index: 0,
        width,
    };
    tiles.len() == 1 && tiles[0] == only
}

// Reports whether the hash and the consistency proof of a subtree are right.
fn is_proof_right(
    alloc: Global,
    nodes: &Nodes<Sha256Hash>,
    leaves: &[[u8; 32]],
    start: u64,
    end: u64,
) -> Result<bool, AllocError> {
    let size = nodes.size();
    if !is_subtree(start, end) || end > size || size > leaves.len() as u64 {
        return Ok(false);
    }
    let tree_root = nodes.root_at(size);
    let hash = subtree_hash(alloc, &Sha256Hash, nodes, start, end)?;
    let proof = subtree_proof(alloc, &Sha256Hash, nodes, start, end, size)?;
    let names = tiles_for_subtree_proof(alloc, start, end, size)?;
    let first = tile_of(alloc, &leaves[..end as usize])?;
    let all = tile_of(alloc, leaves)?;
    let from_tiles = subtree_proof_of_handed(alloc, &Sha256Hash, start, end, size, &all);
    let answer = verify_subtree_consistency(
        &Sha256Hash,
        start,
        end,
        size,
        &hash,
        &tree_root,
        &proof,
    );
    Ok(
        hash == root(&Sha256Hash, &leaves[start as usize..end as usize])
            && answer == Ok(())
            && is_only_tile(&names, size)
            && from_tiles == Ok(proof)
            && subtree_hash_of_handed(alloc, &Sha256Hash, start, end, &first) == Ok(hash),
    )
}

// Reports whether the inclusion proof of a leaf in a subtree is right.
fn is_path_right(
    alloc: Global,
    nodes: &Nodes<Sha256Hash>,
    leaves: &[[u8; 32]],
    index: u64,
    start: u64,
    end: u64,
) -> Result<bool, AllocError> {
    if !is_subtree(start, end) || end > nodes.size() || end > leaves.len() as u64 {
        return Ok(false);
    }
    if index < start || index >= end {
        return Ok(false);
    }
    let hash = root(&Sha256Hash, &leaves[start as usize..end as usize]);
    let path = subtree_path(alloc, &Sha256Hash, nodes, index, start, end)?;
    let names = tiles_for_subtree_path(alloc, index, end)?;
    let tile = tile_of(alloc, &leaves[..end as usize])?;
    let from_tiles = subtree_path_of_handed(alloc, &Sha256Hash, index, start, end, &tile);
    let leaf = leaves[index as usize];
    let answer = evaluate_subtree_inclusion(&Sha256Hash, index, start, end, &leaf, &path);
    Ok(answer == Ok(hash) && is_only_tile(&names, end) && from_tiles == Ok(path))
}

// Reports whether the proof and each path of a range are right, if it is a subtree.
fn is_range_right(
    alloc: Global,
    nodes: &Nodes<Sha256Hash>,
    leaves: &[[u8; 32]],
    start: u64,
    end: u64,
) -> Result<bool, AllocError> {
    if !is_subtree(start, end) {
        return Ok(true);
    }
    for index in start..end {
        if !is_path_right(alloc, nodes, leaves, index, start, end)? {
            return Ok(false);
        }
    }
    is_proof_right(alloc, nodes, leaves, start, end)
}

// Returns the first size for which something is wrong, or 0.
fn first_wrong(alloc: Global) -> Result<u64, AllocError> {
    for size in 1..=LARGEST {
        let nodes = nodes_of(alloc, size)?;
        let leaves = leaves_of(alloc, &nodes)?;
        for start in 0..size {
            for end in start..=size {
                if !is_range_right(alloc, &nodes, &leaves, start, end)? {
                    return Ok(size);
                }
            }
        }
    }
    Ok(0)
}

#[test]
fn each_subtree_has_its_hash_and_its_proofs(rt: HostRuntime) {
    assert!(rt; first_wrong(rt.alloc()) == Ok(0));
}
