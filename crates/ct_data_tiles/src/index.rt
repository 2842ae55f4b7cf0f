//! The extension that holds a leaf's index in the log (leaf_index, C2SP static-ct-api).

ghost use Rattle.std.specs.Prelude.{◌≡◌, ◌<◌, ◌^◌, ℕ, IfSome, IfNone};
ghost use Rattle.ct_codec.specs.Leaf.{index_extension};

use ct_codec::index_extension;
use ct_codec::numbers::number_of_5;

// Returns the number in the last five bytes: the only index of which these extensions can be the extension.
#[tactic(auto, using(crate::proofs::Named::only_index))]
fn last_number(extensions: &[u8]) -> u64
    ensures fits { result < 2 ^ 40 }
    ensures only { (i : ℕ) → i < 2 ^ 40 → extensions.now ≡ index_extension i → result ≡ i }
{
    match extensions.last_chunk::<5>() {
        Some(bytes) => number_of_5(bytes),
        None => 0,
    }
}

/// Returns the index in the log if the extensions contain exactly this index: the extension type 0 in one byte, and the index in five bytes
/// as a vector.
pub fn leaf_index(extensions: &[u8]) -> Option<u64>
    ensures some { IfSome result (λ i. (i < 2 ^ 40) × (extensions.now ≡ index_extension i)) }
    ensures none { IfNone result ((i : ℕ) → i < 2 ^ 40 → extensions.now ≡ index_extension i → ⊥) }
{
    let index = last_number(extensions);
    if extensions == index_extension(index).as_slice() {
        Some(index)
    } else {
        None
    }
}
