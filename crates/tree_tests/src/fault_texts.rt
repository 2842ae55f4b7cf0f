// The text that `Display` shows for each fault of a proof, of evidence and of a head, and for each refusal of a guard.
use ct_guard::{HeadRefusal, ReceiptRefusal};
use ct_monitor::MonitorFault;
use ct_subtrees::{SubtreeEvidenceFault, SubtreeFault};
use ct_verify::{EvidenceFault, ProofFault};
use std::alloc::Global;
use std::fmt::Display;

// Reports whether the text of the fault is these words.
fn is_told<T: Display>(alloc: Global, fault: &T, words: &str) -> bool {
    match format!(in alloc; "{fault}") {
        Ok(text) => text.as_str() == words,
        Err(_) => false,
    }
}

// The same for each of several faults.
fn are_told<T: Display>(alloc: Global, faults: &[(T, &str)]) -> bool {
    for (fault, words) in faults {
        if !is_told(alloc, fault, words) {
            return false;
        }
    }
    true
}

#[test]
fn each_fault_of_a_subtree(rt: HostRuntime) {
    let faults = [
        (
            SubtreeFault::NotASubtree,
            "the range is not a subtree: its start must be a multiple of a power of two that is not below its length",
        ),
        (SubtreeFault::BeyondTree, "the subtree ends beyond the tree"),
        (
            SubtreeFault::IndexOutOfRange,
            "the leaf index is not in the subtree",
        ),
        (
            SubtreeFault::PathTooLong,
            "the proof has more elements than a proof of this subtree has",
        ),
        (
            SubtreeFault::PathTooShort,
            "the proof has fewer elements than a proof of this subtree has",
        ),
        (
            SubtreeFault::FirstMismatch,
            "the proof leads to another hash of the subtree than the given one",
        ),
        (
            SubtreeFault::RootMismatch,
            "the proof leads to another root than the tree head's",
        ),
    ];
    assert!(rt; are_told(rt.alloc(), &faults));
}

#[test]
fn each_fault_of_evidence_for_a_subtree(rt: HostRuntime) {
    let faults = [
        (
            SubtreeEvidenceFault::ProofRefused(SubtreeFault::BeyondTree),
            "the proof of the subtree is refused: the subtree ends beyond the tree",
        ),
        (
            SubtreeEvidenceFault::Memory,
            "there is no memory for the two strings",
        ),
    ];
    assert!(rt; are_told(rt.alloc(), &faults));
}

#[test]
fn each_fault_of_a_proof(rt: HostRuntime) {
    let faults = [
        (
            ProofFault::IndexOutOfRange,
            "the leaf index is not below the tree size",
        ),
        (
            ProofFault::PathTooLong,
            "the path has more elements than a proof at this place has",
        ),
        (
            ProofFault::PathTooShort,
            "the path has fewer elements than a proof at this place has",
        ),
        (
            ProofFault::RootMismatch,
            "the path leads to another root than the tree head's",
        ),
        (
            ProofFault::EmptyPath,
            "the consistency proof has no elements",
        ),
        (
            ProofFault::FirstMismatch,
            "the path leads to another root than the first tree head's",
        ),
        (
            ProofFault::SizesOutOfRange,
            "the first tree is empty, or is not smaller than the second",
        ),
    ];
    assert!(rt; are_told(rt.alloc(), &faults));
}

#[test]
fn each_fault_of_evidence(rt: HostRuntime) {
    let faults = [
        (
            EvidenceFault::ProofRefused(ProofFault::PathTooShort),
            "the proof is refused: the path has fewer elements than a proof at this place has",
        ),
        (
            EvidenceFault::Memory,
            "there is no memory for the two strings",
        ),
    ];
    assert!(rt; are_told(rt.alloc(), &faults));
}

#[test]
fn each_fault_of_a_head(rt: HostRuntime) {
    let faults = [
        (
            MonitorFault::RootMismatch,
            "the root is not that of the kept and the new leaves",
        ),
        (
            MonitorFault::Shrunk,
            "the head has fewer leaves than are kept",
        ),
        (
            MonitorFault::Fork,
            "the last head has this size and another root",
        ),
        (
            MonitorFault::TimeNotLater,
            "the head is not later than the last one",
        ),
        (
            MonitorFault::CountMismatch,
            "the kept and the new leaves are not as many as the head says",
        ),
        (
            MonitorFault::Memory,
            "there is no memory for the new leaves",
        ),
    ];
    assert!(rt; are_told(rt.alloc(), &faults));
}

#[test]
fn each_refusal_of_a_head(rt: HostRuntime) {
    let refusals = [
        (
            HeadRefusal::SizeFalls,
            "the head has fewer leaves than the last one",
        ),
        (
            HeadRefusal::MomentNotLater,
            "the head is not later than the last one",
        ),
        (
            HeadRefusal::Fork,
            "the head has the size of the last one, and another root",
        ),
        (
            HeadRefusal::Inconsistent(ProofFault::EmptyPath),
            "the consistency proof is refused: the consistency proof has no elements",
        ),
    ];
    assert!(rt; are_told(rt.alloc(), &refusals));
}

#[test]
fn each_refusal_of_a_receipt(rt: HostRuntime) {
    let refusals = [
        (ReceiptRefusal::NoHead, "no head was let through yet"),
        (
            ReceiptRefusal::NotThere(ProofFault::PathTooShort),
            "the audit path is refused: the path has fewer elements than a proof at this place has",
        ),
        (
            ReceiptRefusal::LaterLeaf,
            "the leaf is later than the last head",
        ),
        (
            ReceiptRefusal::OtherIndex,
            "the leaf's extensions are not its index alone",
        ),
    ];
    assert!(rt; are_told(rt.alloc(), &refusals));
}
