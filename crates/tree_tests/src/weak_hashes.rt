// Hash functions that have collisions.
ghost use Rattle.std.specs.Prelude.{ℕ, List, [], ◌∷◌, replicate, get_or, length, ◌≡◌};
ghost use Rattle.std.proofs.Common.{refl};
ghost use Rattle.std.proofs.lemmas.List.{length-replicate};
ghost use Rattle.sha2.specs.Sha256.{sha256};

use ct_tree::{NodeHash, Sha256Hash};

// The digest of every message is 32 bytes 00.
#[derive(Clone, Copy)]
pub(crate) struct ZeroHash;

impl NodeHash for ZeroHash {
    ghost digest = { λ _. replicate 32 0 };

    fn hash(&self, _parts: &[&[u8]]) -> [u8; 32] {
        [0; 32]
    }

    ghost length_digest = { λ _. length-replicate {A = ℕ} 32 0 };
}

// The first byte of SHA-256, then 31 bytes 00.
#[derive(Clone, Copy)]
pub(crate) struct WeakHash;

impl NodeHash for WeakHash {
    ghost digest = { λ message. get_or (sha256 message) 0 0 ∷ 0 ∷ 0 ∷ 0 ∷ 0 ∷ 0 ∷ 0 ∷ 0 ∷ 0 ∷ 0 ∷ 0 ∷ 0 ∷ 0 ∷ 0 ∷ 0 ∷ 0 ∷ 0 ∷ 0 ∷ 0 ∷ 0 ∷ 0 ∷ 0 ∷ 0 ∷ 0 ∷ 0 ∷ 0 ∷ 0 ∷ 0 ∷ 0 ∷ 0 ∷ 0 ∷ 0 ∷ [] };

    fn hash(&self, parts: &[&[u8]]) -> [u8; 32] {
        let whole = Sha256Hash.hash(parts);
        let first = whole[0];
        [
            first, 0, 0, 0, 0, 0, 0, 0, 0, 0, 0, 0, 0, 0, 0, 0, 0, 0, 0, 0, 0, 0, 0, 0, 0, 0, 0, 0,
            0, 0, 0, 0,
        ]
    }

    ghost length_digest = { λ _. refl };
}
