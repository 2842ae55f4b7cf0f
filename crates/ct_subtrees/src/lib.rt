//! Subtrees of a Certificate Transparency log's tree, and the verifiers of their proofs.
//!
//! A subtree of a list of leaves D is a range `[start, end)` whose start is a multiple of the smallest power of two that is not below its
//! length. Its hash is MTH(D[start:end]) (RFC 6962, section 2.1). Merkle Tree Certificates sign such hashes, and a certificate's serial
//! number is the index of its leaf.
//!
//! - [`is_subtree`] decides whether a range is a subtree.
//! - [`verify_subtree_consistency`] decides whether a subtree's hash belongs to the tree with a given root.
//! - [`evaluate_subtree_inclusion`] returns the hash of a subtree to which the path of a leaf leads. The caller must compare it with a hash
//!   that it trusts for this start and end.
//! - [`explain_subtree`] compares an accepted proof with the list. It reports that the proof is true of the list, or returns two strings
//!   that differ and have the same hash.
//!
//! They work for every hash function with digests of 32 bytes, every range and size of 64 bits, and every proof. The first three take no
//! memory from an allocator, hash at most two nodes for each element of a proof, and are loops: their stack does not grow with the tree.
//! [`explain_subtree`] calls itself at most 64 times.
//!
//! The meaning of a result is defined from the root of the tree down (`specs/Subtrees.antt`, `specs/Roots.antt`). A refusal names the first
//! fault in a fixed order ([`SubtreeFault`], `specs/Verdict.antt`). The module [`laws`] shows the equations of the definitions, and that
//! every true proof is accepted. The module [`meaning`] states what an accepted proof shows of a list of leaves, or otherwise which strings
//! collide.
//!
//! The recursion of the proofs is that of draft-ietf-plants-merkle-tree-certs, sections 4.1 to 4.4, which is cited from memory. Nothing here
//! depends on the text of the draft, because all of it is mathematics of the tree of RFC 6962.
//!
//! # Made by a log
//!
//! - [`subtree_hash`], [`subtree_path`] and [`subtree_proof`] return the hash and the two proofs from the nodes of a tree.
//! - [`subtree_hash_of_handed`], [`subtree_path_of_handed`] and [`subtree_proof_of_handed`] return the same from the bytes of the tiles that
//!   [`tiles_for_subtree_path`] and [`tiles_for_subtree_proof`] list.
//! - [`cover_range`] returns the one or two subtrees that cover a range of leaves.
//! - [`part_laws`] shows which parts of a path these proofs are, and that a range has one cover.
#![tactic(auto)]

mod consistency;
mod covering;
mod descent;
mod element;
mod explained;
mod fault;
mod from_nodes;
mod from_tiles;
mod inclusion;
pub mod laws;
pub mod meaning;
pub mod part_laws;
mod parts;
mod range;

pub use consistency::verify_subtree_consistency;
pub use covering::{Cover, Subtree, cover_range};
pub use explained::{SubtreeEvidenceFault, explain_subtree};
pub use fault::SubtreeFault;
pub use from_nodes::{subtree_hash, subtree_path, subtree_proof};
pub use from_tiles::{
    subtree_hash_of_handed, subtree_path_of_handed, subtree_proof_of_handed,
    tiles_for_subtree_path, tiles_for_subtree_proof,
};
pub use inclusion::evaluate_subtree_inclusion;
pub use range::is_subtree;
