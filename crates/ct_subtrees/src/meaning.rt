//! The meaning of accepted proofs of subtrees for the list of leaves, or otherwise the strings that collide.
//!
//! Each law ends in "or two of these strings collide". The strings are those that are hashed when the proofs are checked, and those that are
//! hashed in the trees of the list and of the subtree. So each law says something about SHA-256, although two strings somewhere must have
//! the same digest.
//!
//! The laws are about one subtree `[start, end)`. A path and a hash do not show which subtree they belong to, so a signature must cover the
//! start and the end with the hash.
//!
//! The laws hold for every hash function with digests of 32 bytes.

ghost use Rattle.ct_subtrees.specs.Meaning.{AcceptedSubtreeIsOfList, SerialNumberNamesEntry, SubtreeHashShowsOneLeaf};

/// Let a consistency proof between a subtree's hash and the root of a list be accepted. Then the hash is MTH of the list's leaves in that
/// range (RFC 6962, section 2.1), and the proof is their SUBTREE_PROOF; or two of the hashed strings collide. Nothing is required of the
/// hash.
#[tactic(auto, using(crate::proofs::OfList::accepted_subtree_is_of_list))]
pub fn subtree_is_of_list()
    ensures { AcceptedSubtreeIsOfList }
{}

/// A serial number names one entry. Let a consistency proof between a subtree's hash and the root of a list be accepted, and let a path of a
/// leaf at an index evaluate to that hash. Then the leaf is the list's element at that index, and the path is its path; or two of the hashed
/// strings collide.
#[tactic(auto, using(crate::proofs::Serial::serial_number_names_entry))]
pub fn serial_number_names_entry()
    ensures { SerialNumberNamesEntry }
{}

/// Two leaves whose paths evaluate to one hash, at the same index of the same subtree, are the same leaf with the same path; or two of the
/// hashed strings collide. No list is required, so the law is also about a log that has none.
pub fn one_leaf()
    ensures { SubtreeHashShowsOneLeaf }
{}
