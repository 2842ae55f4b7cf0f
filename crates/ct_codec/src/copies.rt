//! Certificates copied, one by one.

ghost use Rattle.std.specs.Prelude.{◌≡◌, ◌++◌, ◌∷◌, [], map, OnOk};

use std::alloc::{AllocError, Allocator};

/// Adds a copy of a certificate, in memory of its own.
pub fn push_copy<A: Allocator + Clone>(
    alloc: &A,
    certificates: &mut Vec<Vec<u8, A>, A>,
    certificate: &[u8],
) -> Result<(), AllocError>
    ensures { OnOk result (map (λ c. c.items) certificates.new.items ≡ map (λ c. c.items) certificates.old.items ++ certificate.now ∷ []) }
{
    let copy = Vec::from_slice(alloc.clone()?, certificate)?;
    certificates.push(copy)?;
    Ok(())
}
