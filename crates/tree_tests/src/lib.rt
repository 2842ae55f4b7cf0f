//! Tests of `ct_tree`, `ct_verify`, `ct_subtrees`, `ct_monitor` and `ct_guard`, in a crate of their own so that each of those crates is
//! proved once.
#![tactic(auto)]

#[cfg(test)]
mod claims;
#[cfg(test)]
mod evidence;
#[cfg(test)]
mod fault_texts;
#[cfg(test)]
mod forged_proofs;
#[cfg(test)]
mod guard;
#[cfg(test)]
mod library_call;
#[cfg(test)]
mod monitor;
#[cfg(test)]
mod rows;
#[cfg(test)]
mod subtrees;
#[cfg(test)]
mod sweeps;
#[cfg(test)]
mod tree;
#[cfg(test)]
mod verifiers;
#[cfg(test)]
mod weak_hashes;
