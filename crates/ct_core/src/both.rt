//! Joins two results into one. If one is refused, the other's value is dropped here. A function that makes several large values in turn
//! would otherwise have to drop all earlier ones at each refusal, and its proof would need a step for each case.

ghost use Rattle.std.specs.Prelude.{◌≡◌, Ok, IfOk, IsOkUnless};

// Returns both values, or the refusal of the first result that was refused.
pub(crate) fn both<A: Drop, B: Drop, E: Drop>(
    first: Result<A, E>,
    second: Result<B, E>,
) -> Result<(A, B), E>
    ensures both { IfOk result (λ p. (first ≡ Ok p.0) × (second ≡ Ok p.1)) }
    ensures unless { (e : E) → IsOkUnless first e → IsOkUnless second e → IsOkUnless result e }
{
    match (first, second) {
        (Ok(one), Ok(other)) => Ok((one, other)),
        (Err(error), _) => Err(error),
        (_, Err(error)) => Err(error),
    }
}
