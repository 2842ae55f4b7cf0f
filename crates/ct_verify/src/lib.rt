//! The two verifiers of a Certificate Transparency log's proofs, and evidence for the proofs that they accept.
//!
//! [`verify_inclusion`] checks an audit path and [`verify_consistency`] a consistency proof, by the steps of RFC 9162, sections 2.1.3.2 and
//! 2.1.4.2. They work for every hash function with digests of 32 bytes, every size of 64 bits and every path. They take no memory and hash
//! at most two nodes for each element of the path.
//!
//! The meaning of a result is defined from the root of the tree down to the leaf, as RFC 6962, sections 2.1.1 and 2.1.2, defines the hashes
//! of a proof. A path is accepted if and only if `rebuild` (`specs/Rebuild.antt`) yields the root, and a consistency proof if and only if
//! `both_roots` yields the two roots. A refusal names the first fault in a fixed order ([`ProofFault`], `specs/Verdict.antt`). The walk of
//! the code, from the leaf up by the bits of two numbers, appears in neither definition. The module [`laws`] shows that every true path and
//! every true proof is accepted, and the equations of `rebuild` and `both_roots`.
//!
//! [`explain_inclusion`] and [`explain_consistency`] say what an accepted proof means without the assumption that the hash function has no
//! collisions. Given the lists themselves, they report that the proof is true of them, or return two strings that differ and have the same
//! hash. For an audit path these are the strings nearest the root (`specs/Evidence.antt`), for a consistency proof those nearest the leaves
//! (`specs/Clash.antt`).
//!
//! The module [`meaning`] states what an accepted proof shows of lists of leaves, of older trees and of what two clients see, or otherwise
//! which strings collide.
#![tactic(auto)]

mod children;
mod consistency;
mod consistency_evidence;
mod evidence;
mod fault;
mod halves;
mod inclusion;
mod inclusion_evidence;
pub mod laws;
pub mod meaning;
mod place;

pub use consistency::verify_consistency;
pub use consistency_evidence::explain_consistency;
pub use evidence::{Evidence, EvidenceFault};
pub use fault::ProofFault;
pub use inclusion::verify_inclusion;
pub use inclusion_evidence::explain_inclusion;
