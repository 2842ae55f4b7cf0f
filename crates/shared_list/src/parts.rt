//! The full parts of a list, in a row that lists share.

ghost use Rattle.std.specs.Prelude.{◌≡◌, [], ◌∷◌, ◌++◌, OnOk, OnErr, IfOk};
ghost use Rattle.std.specs.Arc.{arc_value};

use crate::chunk::Chunk;
use crate::share::{Share, shared_values};
use std::alloc::{AllocError, Global};
use std::marker::Model;
use std::sync::Arc;

/// Parts in order. All lists that have exactly these parts share them. An empty list of parts takes no memory.
#[derive(Drop)]
pub struct Parts<T> {
    chunks: Option<Arc<Vec<Chunk<T>>>>,
}

impl<T> Model for Parts<T> {
    ghost use Rattle.std.specs.Prelude.{List};
    ghost use Rattle.std.specs.Arc.{arc_value};
    ghost use Rattle.shared_list.specs.Flat.{shared_items};

    ghost Value = { List (List T) };

    ghost view = { λ p. shared_items p.chunks (λ chunks. (arc_value chunks).items) };
}

// These parts and one more, in new memory.
fn one_more_part<T: Drop>(
    alloc: Global,
    parts: &[Chunk<T>],
    part: Chunk<T>,
) -> Result<Arc<Vec<Chunk<T>>>, AllocError>
    ensures { IfOk result (λ all. (arc_value all).items ≡ parts.now ++ part ∷ []) }
{
    let mut all = shared_values(alloc, parts, parts.len().saturating_add(1))?;
    all.push(part)?;
    let all = Arc::new(alloc, all)?;
    Ok(all)
}

// Adds a part: in place if no other list shares these parts, and otherwise in new memory.
fn push_part<T: Drop>(
    alloc: Global,
    parts: &mut Arc<Vec<Chunk<T>>>,
    part: Chunk<T>,
) -> Result<(), AllocError>
    ensures ok { OnOk result ((arc_value parts.new).items ≡ (arc_value parts.old).items ++ part ∷ []) }
    ensures err { OnErr result ((arc_value parts.new).items ≡ (arc_value parts.old).items) }
{
    match Arc::get_mut(parts) {
        Some(alone) => {
            alone.push(part)?;
        }
        None => {
            *parts = one_more_part(alloc, parts, part)?;
        }
    }
    Ok(())
}

impl<T> Parts<T> {
    pub(crate) fn new() -> Parts<T>
        ensures { result ≡ [] }
    {
        Parts { chunks: None }
    }

    pub(crate) fn values(&self) -> &[Chunk<T>]
        ensures { result.now ≡ self.now }
    {
        match &self.chunks {
            None => &[],
            Some(chunks) => chunks.as_slice(),
        }
    }
}

impl<T: Drop> Parts<T> {
    pub(crate) fn push(&mut self, alloc: Global, part: Chunk<T>) -> Result<(), AllocError>
        ensures ok { OnOk result (self.new ≡ self.old ++ part ∷ []) }
        ensures err { OnErr result (self.new ≡ self.old) }
    {
        match &mut self.chunks {
            None => {
                self.chunks = Some(one_more_part(alloc, self.values(), part)?);
                Ok(())
            }
            Some(chunks) => push_part(alloc, chunks, part),
        }
    }

    // Removes all parts.
    pub(crate) fn clear(&mut self)
        ensures { self.new ≡ [] }
    {
        self.chunks = None;
    }
}

impl<T: Drop> Share for Parts<T> {
    fn share(&self) -> Result<Parts<T>, AllocError> {
        match &self.chunks {
            None => Ok(Parts { chunks: None }),
            Some(chunks) => Ok(Parts {
                chunks: Some(Arc::try_clone(chunks)?),
            }),
        }
    }
}
