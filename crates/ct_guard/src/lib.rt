//! A guard for a log's key: it decides what may be signed.
//!
//! A [`Guard`] keeps only the tree head that it let through last. It lets another head through only if a consistency proof leads to it from
//! the last one, and its timestamp is later. It lets a receipt through only if an audit path shows its leaf in the last head's tree. Everything
//! else is refused by name, and changes nothing.
//!
//! A signer that signs only the heads that a guard let through signs no fork. If the newest head is that of a list of leaves, each earlier head is
//! that of a beginning of that list, or two of the strings that are hashed collide ([`laws::heads_go_back`]). If each head is that of a list, the
//! lists are beginnings of one list ([`laws::heads`]).
//!
//! The caller must hand each head to the guard that let the last head through, or to a guard that was made with it. So the caller keeps the last
//! head in a place with one writer, and must have it there before the head is signed.
//!
//! # All receipts of a step
//!
//! A step appends leaves to a log, and the log's guard then lets the head of the longer log through. [`pass_receipts`] decides over the
//! leaves of the step at once, with one proof for all of them: the roots of the perfect subtrees of the leaves before the step. An audit
//! path for each leaf, as [`pass_receipt`] asks for, hashes each node near the root once for each leaf. This call hashes each node once.
//!
//! If the last head is the head of a list of leaves, the leaves of such a step are the last leaves of that list, or two of the strings that
//! are hashed collide ([`step_receipts_laws::step_receipts`]).
//!
//! All of this holds for every hash function with digests of 32 bytes (`NodeHash`), SHA-256 among them.
#![tactic(auto)]

mod guard;
pub mod laws;
mod refusal;
mod step_receipts;
pub mod step_receipts_laws;

pub use guard::{Guard, is_own_index, pass_receipt};
pub use refusal::{HeadRefusal, ReceiptRefusal};
pub use step_receipts::pass_receipts;
