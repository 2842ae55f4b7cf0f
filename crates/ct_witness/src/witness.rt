//! The witness's decision whether to cosign a tree.
ghost use Rattle.std.specs.Prelude.{◌≡◌, ◌≤◌, MatchResult, OnOk, OnErr};
ghost use Rattle.ct_witness.specs.Witnessed.{TreeGoesOn, StopsGoingOn, PassesTree, StopsTree};
ghost use Rattle.ct_witness.specs.Runs.{no_tree};

use crate::refusal::WitnessRefusal;
use crate::tree::Tree;
use ct_tree::{NodeHash, is_same_digest};
use ct_verify::verify_consistency;

/// The tree of one log that was cosigned last. A saved tree is passed in as it is.
#[derive(Clone, Copy, Debug, PartialEq, Eq)]
pub struct Witness {
    pub last: Tree,
}

// The decision for a tree that is not smaller than the last one.
fn goes_on<H: NodeHash>(
    h: &H,
    last: &Tree,
    tree: &Tree,
    proof: &[[u8; 32]],
) -> Result<(), WitnessRefusal>
    requires larger { last.now.size ≤ tree.now.size }
    ensures { MatchResult result (λ _. TreeGoesOn H.digest last.now tree.now proof.now) (StopsGoingOn H.digest last.now tree.now proof.now) }
{
    if tree.size == last.size {
        if !is_same_digest(&tree.root, &last.root) {
            return Err(WitnessRefusal::Fork);
        }
        return if proof.is_empty() {
            Ok(())
        } else {
            Err(WitnessRefusal::ProofNotEmpty)
        };
    }
    if last.size == 0 {
        return if proof.is_empty() {
            Ok(())
        } else {
            Err(WitnessRefusal::ProofNotEmpty)
        };
    }
    match verify_consistency(h, last.size, tree.size, &last.root, &tree.root, proof) {
        Ok(()) => Ok(()),
        Err(fault) => Err(WitnessRefusal::Inconsistent(fault)),
    }
}

impl Witness {
    /// A witness that has cosigned nothing: the tree of no leaves is the last one.
    pub fn new<H: NodeHash>(h: &H) -> Witness
        ensures { result.last ≡ no_tree H.digest }
    {
        Witness {
            last: Tree {
                size: 0,
                root: h.hash(&[]),
            },
        }
    }

    /// Passes a tree, or refuses it (C2SP tlog-witness, add-checkpoint). The proof is a consistency proof (RFC 6962, section 2.1.2) from
    /// the last tree to this one; `old` is the claimed number of leaves of the last tree. If the two have the same size, or the last has no
    /// leaves, the proof is empty. The last tree is passed again.
    ///
    /// After that, the caller may sign the cosignature's message for this tree's checkpoint (C2SP tlog-cosignature).
    ///
    /// # Errors
    ///
    /// In this order: `OldAbove`, `NotLast`, `Fork`, `ProofNotEmpty`, `Inconsistent`. The witness is unchanged then.
    pub fn pass<H: NodeHash>(
        &mut self,
        h: &H,
        old: u64,
        tree: &Tree,
        proof: &[[u8; 32]],
    ) -> Result<(), WitnessRefusal>
        ensures passes { MatchResult result (λ _. PassesTree H.digest self.old.last old tree.now proof.now) (StopsTree H.digest self.old.last old tree.now proof.now) }
        ensures next { OnOk result (self.new.last ≡ tree.now) }
        ensures unchanged { OnErr result (self.new ≡ self.old) }
    {
        if tree.size < old {
            return Err(WitnessRefusal::OldAbove);
        }
        if old != self.last.size {
            return Err(WitnessRefusal::NotLast);
        }
        goes_on(h, &self.last, tree, proof)?;
        self.last = *tree;
        Ok(())
    }
}
