//! The element of a proof that is nearest the root.
ghost use Rattle.std.specs.Prelude.{◌≡◌, ◌<◌, [], ◌∷◌, ◌++◌, length};

// The last element of a proof, which is nearest the root, and the ones before it.
pub(crate) fn last_and_rest(proof: &[[u8; 32]]) -> ([u8; 32], &[[u8; 32]])
    requires { 0 < length proof.now }
    ensures { proof.now ≡ result.1.now ++ result.0 ∷ [] }
{
    match proof.split_last() {
        Some((last, rest)) => (*last, rest),
        None => ([0; 32], proof),
    }
}
