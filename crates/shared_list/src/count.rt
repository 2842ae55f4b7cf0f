//! The count of a list's values.

ghost use Rattle.std.specs.Prelude.{◌≡◌, ◌+◌, IfOk};

use std::alloc::{AllocError, Global};

// The next number. The largest `usize` has none. A list with that many values is refused, because memory for as many bytes is refused.
pub(crate) fn one_more(alloc: Global, len: usize) -> Result<usize, AllocError>
    ensures { IfOk result (λ n. n ≡ len + 1) }
{
    if len == usize::MAX {
        let _room: Vec<u8> = Vec::with_capacity(alloc, len)?;
        prove!(false);
        return Ok(len);
    }
    Ok(len + 1)
}
