//! The leaf hashes of many leaves, computed by threads that are joined.
ghost use Rattle.std.specs.Prelude.{◌≡◌, ◌+◌, ◌<◌, ◌≤◌, ℕ, List, length, map, slice_index_or, IfOk};
ghost use Rattle.std.specs.List.{flat_map};
ghost use Rattle.ct_tree.specs.Tree.{hash_leaf};

use crate::hash::{NodeHash, leaf_hash, leaf_hash_parts};
use std::alloc::{AllocError, Allocator};
use std::thread::{Threads, for_each_mut};

// A leaf, in whatever form its bytes are held.
trait LeafBytes {
    ghost bytes: { Self → List ℕ };

    fn hashed<H: NodeHash>(&self, h: &H) -> [u8; 32]
        ensures { result ≡ hash_leaf H.digest (bytes self.now) };
}

impl LeafBytes for Vec<u8> {
    ghost bytes = { λ leaf. leaf.items };

    fn hashed<H: NodeHash>(&self, h: &H) -> [u8; 32] {
        leaf_hash(h, self)
    }
}

impl<'a> LeafBytes for [&'a [u8]; 5] {
    ghost bytes = { λ parts. flat_map (λ part. part.now) parts };

    fn hashed<H: NodeHash>(&self, h: &H) -> [u8; 32] {
        leaf_hash_parts(h, *self)
    }
}

// Each worker hashes one part. If no thread can be started for a part, the caller's thread hashes it.
fn hash_each<H: NodeHash + Sync, L: LeafBytes + Sync, R: Threads + Sync>(
    rt: &R,
    h: &H,
    leaves: &[L],
    hashes: &mut [[u8; 32]],
    workers: usize,
)
    requires length { length hashes.old ≡ length leaves.now }
    requires workers { 0 < workers }
    ensures length { length hashes.new ≡ length hashes.old }
    ensures each { (k : ℕ) (d : List ℕ) (e : L) → k < length hashes.old
        → slice_index_or hashes.new k d ≡ hash_leaf H.digest (L.bytes (slice_index_or leaves.now k e)) }
{
    for_each_mut(rt, hashes, workers, &|k, hash| *hash = leaves[k].hashed(h));
}

// The leaf hashes in order.
fn hash_all<A: Allocator, H: NodeHash + Sync, L: LeafBytes + Sync, R: Threads + Sync>(
    rt: &R,
    alloc: A,
    h: &H,
    leaves: &[L],
    workers: usize,
) -> Result<Vec<[u8; 32], A>, AllocError>
    requires { (0 < workers) × (workers ≤ 64) }
    ensures { IfOk result (λ hashes.
        hashes.items ≡ map (λ leaf. hash_leaf H.digest (L.bytes leaf)) leaves.now) }
{
    let mut hashes = vec![in alloc; [0; 32]; leaves.len()]?;
    hash_each(rt, h, leaves, &mut hashes, workers);
    Ok(hashes)
}

/// The leaf hashes of `leaves` in order (RFC 6962, section 2.1), by 1 to 64 workers. Each worker hashes one contiguous part. No part has
/// more leaves than the first, which has the number of leaves divided by the number of workers, rounded up. If no thread can be started for
/// a worker, its part is hashed all the same.
pub fn hash_batch<A: Allocator, H: NodeHash + Sync, R: Threads + Sync>(
    rt: &R,
    alloc: A,
    h: &H,
    leaves: &[Vec<u8>],
    workers: usize,
) -> Result<Vec<[u8; 32], A>, AllocError>
    requires { (0 < workers) × (workers ≤ 64) }
    ensures { IfOk result (λ hashes.
        hashes.items ≡ map (λ leaf. hash_leaf H.digest leaf.items) leaves.now) }
{
    hash_all(rt, alloc, h, leaves, workers)
}

/// The same result as `hash_batch`, for leaves whose bytes are in five parts that follow one another.
pub fn hash_batch_parts<A: Allocator, H: NodeHash + Sync, R: Threads + Sync>(
    rt: &R,
    alloc: A,
    h: &H,
    leaves: &[[&[u8]; 5]],
    workers: usize,
) -> Result<Vec<[u8; 32], A>, AllocError>
    requires { (0 < workers) × (workers ≤ 64) }
    ensures { IfOk result (λ hashes.
        hashes.items ≡ map (λ parts. hash_leaf H.digest (flat_map (λ part. part.now) parts)) leaves.now) }
{
    hash_all(rt, alloc, h, leaves, workers)
}
