//! Submissions to the log, the bytes of leaves and chains, and the refusals.
//!
//! - `Submission` is what a client submits: a chain of certificates whose lengths are in range, or a precertificate's chain with the hash
//!   of its issuer's key and its TBSCertificate. `Item` is an accepted submission.
//! - `identity`, `leaf_input` and `extra_data` write its bytes (RFC 6962 sections 3.1, 3.4 and 4.6), and write numbers by `byteorder`.
//!   `same_identity` compares two submissions by their identities, and writes none.
//! - `leaf_input_with_extensions` and `push_timestamped_entry` write a leaf with extensions. `index_extension` writes the extensions that
//!   contain its index in the log (C2SP static-ct-api). The same extensions are in the leaf, in the signed bytes and in the receipt.
//! - `decode_leaf`, `decode_chain` and `decode_pre_chain` read from bytes: a leaf of either entry type, a chain, and a precertificate with
//!   its chain. If the bytes are malformed, they return the first fault from the left before they take any memory: the walk over the input
//!   (`lend_leaf`, `last_chain`) has no allocator. `lend_leaf` reads a leaf in place, for callers that need no copy. `Reader` and
//!   `entry_at` read the fields that other formats share with a leaf.
//! - `tree_head_signature_input` and `certificate_timestamp_signature_input` write the bytes that a log signs (sections 3.5 and 3.2).
//! - `Refusal` has every reason for which a call of the log is refused.
//! - The functions of [`laws`] do nothing: their contracts are laws of the formats.
//!
//! The definitions of the bytes are in `specs`: `Bytes` (numbers and vectors), `Leaf` (leaves and chains), `Submitted`, `Hashed`, `Faults`,
//! `Items`, `Signed`, `Laws`.
#![tactic(auto)]

mod copies;
mod fault;
mod item;
pub mod laws;
pub mod numbers;
mod parts;
mod reader;
mod reading;
mod refusal;
mod signing;
mod submission;
mod writing;

pub use fault::DecodeFault;
pub use item::Item;
pub use parts::{LeafParts, leaf_parts};
pub use reader::Reader;
pub use reading::{
    Leaf, LeafEntry, LentEntry, LentLeaf, decode_chain, decode_leaf, decode_pre_chain, entry_at,
    lend_leaf,
};
pub use refusal::Refusal;
pub use signing::{
    certificate_timestamp_signature_input, certificate_timestamp_signature_input_with_extensions,
    tree_head_signature_input,
};
pub use submission::Submission;
pub use writing::{
    extra_data, identity, index_extension, leaf_input, leaf_input_with_extensions,
    push_precertificate, push_timestamped_entry, push_vector, same_identity,
};
