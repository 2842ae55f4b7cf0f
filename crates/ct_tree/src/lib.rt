//! The Merkle tree of RFC 6962, section 2.1: leaf and node hashes, roots, audit paths and consistency proofs.
//!
//! - [`NodeHash`] is a hash function with digests of 32 bytes, and [`Sha256Hash`] is SHA-256. Everything else here holds for every
//!   `NodeHash`. `leaf_hash` and `node_hash` are the tree's two uses of it, and `is_same_digest` compares two digests.
//! - [`Stack`] keeps the perfect subtrees of a list of leaves that only grows: enough for its root. `with_leaf` and `root_of_subtrees` are
//!   its two steps, for callers that keep the subtrees elsewhere.
//! - [`Nodes`] keeps every node of such a tree. It computes the root, the audit paths and the consistency proofs of each prefix of the
//!   list.
//! - [`walk`] computes these three from nodes that are kept anywhere. [`Nodes`] is one such store.
//! - `hash_batch` hashes many leaves by several threads.
//! - `largest_power_below` is the size at which a tree is split, and [`Head`] is a tree head without its signature.
//! - [`reference`] computes roots, paths and proofs as the RFC writes them, slowly. `tree_tests` compares with it.
//! - [`laws`] shows that the definitions of `specs/Tree.antt`, which all the contracts name, satisfy the RFC's equations.
//!
//! A tree is a list of leaf hashes, the leftmost first. Leaf indexes begin at 0, and sizes count leaves.
#![tactic(auto)]

mod batch;
mod hash;
mod head;
pub mod laws;
mod levels;
mod nodes;
mod power;
pub mod reference;
mod stack;
mod subtrees;
pub mod walk;

pub use batch::{hash_batch, hash_batch_parts};
pub use hash::{NodeHash, Sha256Hash, is_same_digest, leaf_hash, leaf_hash_parts, node_hash};
pub use head::Head;
pub use nodes::Nodes;
pub use power::largest_power_below;
pub use stack::{Snapshot, Stack};
use std::alloc::AllocError;
pub use subtrees::{root_of_subtrees, with_leaf};

/// Memory could not be allocated.
pub type Memory = AllocError;
