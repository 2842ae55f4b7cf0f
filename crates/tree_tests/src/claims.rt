// The statements that audit paths and consistency proofs prove, as one type, so that the same functions test both kinds.
ghost use Rattle.std.specs.Prelude.{◌<◌, length};

use ct_tree::Sha256Hash;
use ct_tree::reference::root;
use ct_verify::{ProofFault, verify_consistency, verify_inclusion};

#[derive(Clone, Copy, PartialEq)]
pub(crate) enum Kind {
    Path,
    Proof,
}

// The claim that the leaf `m` of `n` has the hash `first`, or that the first `m` of `n` leaves have the root `first`; and that all leaves
// have the root `root`.
#[derive(Clone, Copy)]
pub(crate) struct Claim {
    pub(crate) kind: Kind,
    pub(crate) m: usize,
    pub(crate) n: usize,
    pub(crate) first: [u8; 32],
    pub(crate) root: [u8; 32],
}

impl Claim {
    // The result of the verifier of this kind.
    pub(crate) fn answer(&self, proof: &[[u8; 32]]) -> Result<(), ProofFault> {
        let (m, n) = (self.m as u64, self.n as u64);
        match self.kind {
            Kind::Path => verify_inclusion(&Sha256Hash, &self.first, m, n, proof, &self.root),
            Kind::Proof => { verify_consistency(&Sha256Hash, m, n, &self.first, &self.root, proof) }
        }
    }
}

// The hash of the leaf `m`, or the root of the first `m` leaves.
pub(crate) fn first_of(kind: Kind, leaves: &[[u8; 32]], m: usize) -> [u8; 32]
    requires { m < length leaves.now }
{
    match kind {
        Kind::Path => leaves[m],
        Kind::Proof => root(&Sha256Hash, &leaves[..m]),
    }
}
