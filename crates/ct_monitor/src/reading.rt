//! A state read from its bytes.

ghost use Rattle.std.specs.Prelude.{◌≡◌, ◌<◌, ◌^◌, ◌++◌, ◌∷◌, ℕ, List, length, IfOk, MatchOption, Option};
ghost use Rattle.std.specs.Bool.{MatchBool};
ghost use Rattle.sha2.specs.Sha256.{sha256};
ghost use Rattle.ct_codec.specs.Bytes.{vec};
ghost use Rattle.ct_codec.specs.Parts.{joined};
ghost use Rattle.ct_tree.specs.declared.head.Head.{Head as HeadOf};
ghost use Rattle.ct_monitor.specs.WatcherState.{WatcherState};
ghost use Rattle.ct_verify.specs.Laws.{AreHashes};
ghost use Rattle.ct_monitor.specs.StateText.{AreSubtreesInBytes, IsHeadInBytes, IsInBytes, IsNoState, IsNoneOrInBytes, IsMonitorState, IsPartsText, fields_text, head_text, subtrees_text};
ghost use Rattle.ct_monitor.specs.StateText.{AreNewestInBytes, IsHeadsText, seen_once, timestamp_or_0};
ghost use Rattle.ct_codec.specs.Bytes.{num};
ghost use Rattle.ct_monitor.specs.declared.newest.Newest.{Newest as NewestOf};

use crate::facts::{are_hashes, are_newest};
use crate::fitting::fits_together;
use crate::writing::digest;
use crate::{Newest, Peaks, Watcher};
use ct_codec::Reader;
use ct_tree::{Head, Sha256Hash, is_same_digest};
use std::alloc::{AllocError, Global};

// A vector whose length has 8 bytes.
fn vector_at<'a>(reader: &mut Reader<'a>) -> Option<&'a [u8]>
    ensures { MatchOption result ((x r : List ℕ) → length x < 2 ^ 64 → reader.old ≡ vec 8 x ++ r → ⊥)
        (λ x. (length x.now < 2 ^ 64) × (reader.old ≡ vec 8 x.now ++ reader.new)) }
{
    let Some(length) = reader.number_8() else {
        return None;
    };
    let Some(content) = reader.bytes(length as usize) else {
        return None;
    };
    Some(content)
}

// The fields of a tree head.
#[tactic(auto, using(crate::proofs::NoTexts::short_two, crate::proofs::NoTexts::short_three))]
fn fields_at(reader: &mut Reader<'_>) -> Option<Head>
    ensures { MatchOption result (length reader.old < 48) (λ head. IsHeadInBytes head × (reader.old ≡ fields_text head ++ reader.new)) }
{
    let Some(tree_size) = reader.number_8() else {
        return None;
    };
    let Some(timestamp) = reader.number_8() else {
        return None;
    };
    let Some(root) = reader.key_hash() else {
        return None;
    };
    Some(Head {
        tree_size,
        timestamp,
        root: *root,
    })
}

// A tree head that may be missing.
fn head_at(reader: &mut Reader<'_>) -> Option<Option<Head>>
    ensures { MatchOption result ((h : Option HeadOf) (r : List ℕ) → IsNoneOrInBytes h → reader.old ≡ head_text h ++ r → ⊥)
        (λ h. IsNoneOrInBytes h × (reader.old ≡ head_text h ++ reader.new)) }
{
    let Some(mark) = reader.number_1() else {
        return None;
    };
    if mark == 0 {
        return Some(None);
    }
    if mark != 1 {
        return None;
    }
    match fields_at(reader) {
        Some(head) => Some(Some(head)),
        None => None,
    }
}

// The roots of subtrees that these bytes encode.
#[tactic(auto, using(crate::proofs::NoTexts::whole_hashes, crate::proofs::NoTexts::hashes_back))]
fn roots_of(alloc: Global, bytes: &[u8]) -> Result<Option<Vec<[u8; 32]>>, AllocError>
    ensures { IfOk result (λ o. MatchOption o ((p : List (List ℕ)) → AreHashes p → bytes.now ≡ joined p → ⊥)
        (λ v. AreHashes v.items × (bytes.now ≡ joined v.items))) }
{
    let (roots, rest) = bytes.as_chunks::<32>();
    let left = rest.len();
    if left != 0 {
        return Ok(None);
    }
    are_hashes(roots);
    let copied = Vec::from_slice(alloc, roots)?;
    Ok(Some(copied))
}

// A number of leaves, and the roots of their perfect subtrees.
fn subtrees_at(alloc: Global, reader: &mut Reader<'_>) -> Result<Option<Peaks>, AllocError>
    ensures { IfOk result (λ o. MatchOption o ((p : ℕ × List (List ℕ)) (r : List ℕ) → AreSubtreesInBytes p → reader.old ≡ subtrees_text p ++ r → ⊥)
        (λ p. AreSubtreesInBytes p × (reader.old ≡ subtrees_text p ++ reader.new))) }
{
    let Some(leaves) = reader.number_8() else {
        return Ok(None);
    };
    let Some(bytes) = vector_at(reader) else {
        return Ok(None);
    };
    let found = roots_of(alloc, bytes)?;
    match found {
        Some(roots) => Ok(Some(Peaks::from_parts(leaves, roots))),
        None => Ok(None),
    }
}

// The accepted and the waiting head of a state.
#[derive(Clone, Copy)]
struct Pair {
    accepted: Option<Head>,
    waiting: Option<Head>,
}

// The heads of a state.
fn pair_at(reader: &mut Reader<'_>) -> Option<Pair>
    ensures { MatchOption result ((a w : Option HeadOf) (r : List ℕ) → IsNoneOrInBytes a → IsNoneOrInBytes w → reader.old ≡ head_text a ++ (head_text w ++ r) → ⊥)
        (λ p. IsNoneOrInBytes p.accepted × IsNoneOrInBytes p.waiting × (reader.old ≡ head_text p.accepted ++ (head_text p.waiting ++ reader.new))) }
{
    let Some(accepted) = head_at(reader) else {
        return None;
    };
    let Some(waiting) = head_at(reader) else {
        return None;
    };
    Some(Pair { accepted, waiting })
}

// The newest timestamps of a state.
#[tactic(auto, using(crate::proofs::NoTexts::short_second))]
fn newest_at(reader: &mut Reader<'_>) -> Option<Newest>
    ensures { MatchOption result (length reader.old < 16) (λ n. AreNewestInBytes n × (reader.old ≡ num 8 n.accepted ++ (num 8 n.waiting ++ reader.new))) }
{
    let Some(accepted) = reader.number_8() else {
        return None;
    };
    let Some(waiting) = reader.number_8() else {
        return None;
    };
    Some(Newest { accepted, waiting })
}

// The accepted and the waiting head of a state, and their newest timestamps.
#[derive(Clone, Copy)]
struct Heads {
    accepted: Option<Head>,
    waiting: Option<Head>,
    newest: Newest,
}

// The heads of a state after the version 2.
fn second_heads_at(reader: &mut Reader<'_>) -> Option<Heads>
    ensures { MatchOption result ((a w : Option HeadOf) (n : NewestOf) (r : List ℕ) → IsNoneOrInBytes a → IsNoneOrInBytes w
        → reader.old ≡ head_text a ++ (head_text w ++ (num 8 n.accepted ++ (num 8 n.waiting ++ r))) → ⊥)
        (λ h. IsNoneOrInBytes h.accepted × IsNoneOrInBytes h.waiting × AreNewestInBytes h.newest
        × (reader.old ≡ head_text h.accepted ++ (head_text h.waiting ++ (num 8 h.newest.accepted ++ (num 8 h.newest.waiting ++ reader.new))))) }
{
    let Some(pair) = pair_at(reader) else {
        return None;
    };
    let Some(newest) = newest_at(reader) else {
        return None;
    };
    Some(Heads {
        accepted: pair.accepted,
        waiting: pair.waiting,
        newest,
    })
}

// The timestamp of a head, or 0 if there is none.
fn timestamp_or_0(head: Option<Head>) -> u64
    ensures { result ≡ timestamp_or_0 head }
{
    match head {
        Some(head) => head.timestamp,
        None => 0,
    }
}

// The heads of a state after the version 1, which were handed out once.
fn first_heads_at(reader: &mut Reader<'_>) -> Option<Heads>
    ensures { MatchOption result ((a w : Option HeadOf) (r : List ℕ) → IsNoneOrInBytes a → IsNoneOrInBytes w → reader.old ≡ head_text a ++ (head_text w ++ r) → ⊥)
        (λ h. IsNoneOrInBytes h.accepted × IsNoneOrInBytes h.waiting × AreNewestInBytes h.newest × (h.newest ≡ seen_once h.accepted h.waiting)
        × (reader.old ≡ head_text h.accepted ++ (head_text h.waiting ++ reader.new))) }
{
    let Some(pair) = pair_at(reader) else {
        return None;
    };
    let newest = Newest {
        accepted: timestamp_or_0(pair.accepted),
        waiting: timestamp_or_0(pair.waiting),
    };
    are_newest(newest);
    Some(Heads {
        accepted: pair.accepted,
        waiting: pair.waiting,
        newest,
    })
}

// The version of a state, and its heads.
fn heads_at(reader: &mut Reader<'_>) -> Option<Heads>
    ensures { MatchOption result ((a w : Option HeadOf) (n : NewestOf) (text r : List ℕ) → IsNoneOrInBytes a → IsNoneOrInBytes w → IsHeadsText a w n text
        → reader.old ≡ text ++ r → ⊥)
        (λ h. IsNoneOrInBytes h.accepted × IsNoneOrInBytes h.waiting × AreNewestInBytes h.newest
        × ((text : List ℕ) × IsHeadsText h.accepted h.waiting h.newest text × (reader.old ≡ text ++ reader.new))) }
{
    let Some(version) = reader.number_1() else {
        return None;
    };
    if version == 2 {
        return second_heads_at(reader);
    }
    if version == 1 {
        return first_heads_at(reader);
    }
    None
}

// The subtrees of the accepted leaves, and those of all leaves that were read.
#[derive(Drop)]
struct Both {
    sure: Peaks,
    all: Peaks,
}

// The subtrees of a state, which end the bytes.
fn both_at(alloc: Global, reader: &mut Reader<'_>) -> Result<Option<Both>, AllocError>
    ensures { IfOk result (λ o. MatchOption o ((p q : ℕ × List (List ℕ)) → AreSubtreesInBytes p → AreSubtreesInBytes q → reader.old ≡ subtrees_text p ++ subtrees_text q → ⊥)
        (λ b. AreSubtreesInBytes b.sure × AreSubtreesInBytes b.all × (reader.old ≡ subtrees_text b.sure ++ subtrees_text b.all))) }
{
    let Some(sure) = subtrees_at(alloc, reader)? else {
        return Ok(None);
    };
    let Some(all) = subtrees_at(alloc, reader)? else {
        return Ok(None);
    };
    let ended = reader.is_at_end();
    if ended {
        Ok(Some(Both { sure, all }))
    } else {
        Ok(None)
    }
}

// The state whose parts the bytes encode, whether these parts fit or not.
fn parts_in(alloc: Global, bytes: &[u8]) -> Result<Option<Watcher<Sha256Hash>>, AllocError>
    ensures { IfOk result (λ o. MatchOption o ((s : WatcherState) → IsInBytes s → IsPartsText s bytes.now → ⊥)
        (λ w. IsInBytes w × IsPartsText w bytes.now)) }
{
    let mut reader = Reader::new(bytes);
    let Some(heads) = heads_at(&mut reader) else {
        return Ok(None);
    };
    let found = both_at(alloc, &mut reader)?;
    match found {
        Some(both) => Ok(Some(Watcher::from_parts(
            Sha256Hash,
            heads.accepted,
            heads.waiting,
            heads.newest,
            both.sure,
            both.all,
        ))),
        None => Ok(None),
    }
}

// Reports whether two hashes are the same.
fn are_same(one: &[u8; 32], two: &[u8; 32]) -> bool
    ensures { MatchBool result (one.now ≡ two.now) (one.now ≡ two.now → ⊥) }
{
    is_same_digest(one, two)
}

// The parts of a state, if their hash follows them.
fn checked(bytes: &[u8]) -> Option<&[u8]>
    ensures { MatchOption result ((parts : List ℕ) → bytes.now ≡ parts ++ sha256 parts → ⊥) (λ parts. bytes.now ≡ parts.now ++ sha256 parts.now) }
{
    let Some((parts, check)) = bytes.split_last_chunk::<32>() else {
        return None;
    };
    let expected = digest(parts);
    let same = are_same(&expected, check);
    if same { Some(parts) } else { None }
}

/// The state that the bytes encode, if they encode one.
pub(crate) fn read_state(
    alloc: Global,
    bytes: &[u8],
) -> Result<Option<Watcher<Sha256Hash>>, AllocError>
    ensures { IfOk result (λ o. MatchOption o (IsNoState sha256 bytes.now) (λ w. IsMonitorState sha256 w bytes.now)) }
{
    let Some(parts) = checked(bytes) else {
        return Ok(None);
    };
    let Some(watcher) = parts_in(alloc, parts)? else {
        return Ok(None);
    };
    let fits = fits_together(&watcher);
    if fits { Ok(Some(watcher)) } else { Ok(None) }
}
