// A hash function that has collisions.
ghost use Rattle.std.specs.Prelude.{ℕ, replicate};
ghost use Rattle.std.proofs.lemmas.List.{length-replicate};

use ct_tree::NodeHash;

// The digest of every message is 32 bytes 00.
#[derive(Clone, Copy)]
pub(crate) struct ZeroHash;

impl NodeHash for ZeroHash {
    ghost digest = { λ _. replicate 32 0 };

    fn hash(&self, _parts: &[&[u8]]) -> [u8; 32] {
        [0; 32]
    }

    ghost length_digest = { λ _. length-replicate {A = ℕ} 32 0 };
}
