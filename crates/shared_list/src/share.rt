//! Values that two lists can have in common.

ghost use Rattle.std.specs.Prelude.{◌≡◌, ◌++◌, OnOk, IfOk};

use std::alloc::{AllocError, Global};

/// A value that can be duplicated at little cost: the duplicate is equal to it.
pub trait Share: Drop {
    /// An equal value.
    fn share(&self) -> Result<Self, AllocError>
        ensures { IfOk result (λ x. x ≡ self.now) };
}

impl<T: Copy> Share for T {
    fn share(&self) -> Result<T, AllocError> {
        Ok(*self)
    }
}

// Values equal to these, with room for `capacity` values.
pub(crate) fn shared_values<T: Share>(
    alloc: Global,
    list: &[T],
    capacity: usize,
) -> Result<Vec<T>, AllocError>
    ensures { IfOk result (λ values. values.items ≡ list.now) }
{
    let mut values = Vec::with_capacity(alloc, capacity)?;
    share_all(list, &mut values)?;
    Ok(values)
}

// Adds values equal to those of `list` at the end of `into`.
pub(crate) fn share_all<T: Share>(list: &[T], into: &mut Vec<T>) -> Result<(), AllocError>
    ensures { OnOk result (into.new.items ≡ into.old.items ++ list.now) }
{
    for value in list {
        into.push(value.share()?)?;
    }
    Ok(())
}
