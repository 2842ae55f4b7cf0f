//! Lists of places.

ghost use Rattle.std.specs.Prelude.{◌≡◌, List, [], ◌∷◌, ◌++◌, length, IfOk, OnOk};
ghost use Rattle.shared_table.specs.Looked.{AreParts};
ghost use Rattle.shared_table.specs.declared.slots.Slot.{Slot};

use std::alloc::{AllocError, Global};

/// A place, with the bits of its address that the lists above it do not determine.
#[derive(Clone, Copy)]
pub struct Slot {
    /// The remaining bits of the address.
    pub address: u64,
    /// The place.
    pub place: u64,
}

// Two lists, one after the other.
pub(crate) fn joined(
    alloc: Global,
    first: &[Slot],
    second: &[Slot],
) -> Result<Vec<Slot>, AllocError>
    ensures { IfOk result (λ v. v.items ≡ first.now ++ second.now) }
{
    let mut both = Vec::with_capacity(alloc, first.len().saturating_add(second.len()))?;
    both.extend_from_slice(first)?;
    both.extend_from_slice(second)?;
    Ok(both)
}

// 64 empty parts.
fn empty_parts(alloc: Global) -> Result<Vec<Vec<Slot>>, AllocError>
    ensures { IfOk result (λ v. AreParts v.items []) }
{
    let mut parts = Vec::with_capacity(alloc, 64)?;
    for _ in 0..64usize {
        parts.push(Vec::new(alloc))?;
    }
    Ok(parts)
}

// Puts a slot into the part that the lowest bits of its address select, with the higher bits as its address.
fn put(parts: &mut Vec<Vec<Slot>>, slot: Slot) -> Result<(), AllocError>
    requires { length parts.old.items ≡ 64 }
    ensures { OnOk result ((slots : List Slot) → AreParts parts.old.items slots → AreParts parts.new.items (slots ++ slot ∷ [])) }
{
    let part = &mut parts[(slot.address % 64) as usize];
    part.push(Slot {
        address: slot.address / 64,
        place: slot.place,
    })?;
    Ok(())
}

// The slots, distributed by the lowest bits of their addresses, with the higher bits as their addresses.
pub(crate) fn parts_of(alloc: Global, slots: &[Slot]) -> Result<Vec<Vec<Slot>>, AllocError>
    ensures { IfOk result (λ v. AreParts v.items slots.now) }
{
    let mut parts = empty_parts(alloc)?;
    for slot in slots {
        put(&mut parts, *slot)?;
    }
    Ok(parts)
}
