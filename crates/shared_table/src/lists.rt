//! Lists that are shared with their copies.

ghost use Rattle.std.specs.Prelude.{◌≡◌, [], IfOk};

use std::alloc::{AllocError, Global};
use std::marker::Model;
use std::sync::Arc;

/// A list that is shared with its copies. An empty list takes no memory. Contracts see the plain list.
#[derive(Drop)]
pub struct Shared<A> {
    items: Option<Arc<Vec<A>>>,
}

impl<A> Model for Shared<A> {
    ghost use Rattle.std.specs.Prelude.{List};
    ghost use Rattle.std.specs.Arc.{arc_value};
    ghost use Rattle.shared_list.specs.Flat.{shared_items};

    ghost Value = { List A };

    ghost view = { λ s. shared_items s.items (λ items. (arc_value items).items) };
}

impl<A> Shared<A> {
    pub(crate) fn new() -> Shared<A>
        ensures { result ≡ [] }
    {
        Shared { items: None }
    }

    pub(crate) fn as_slice(&self) -> &[A]
        ensures { result.now ≡ self.now }
    {
        match &self.items {
            None => &[],
            Some(items) => items.as_slice(),
        }
    }
}

impl<A: Drop> Shared<A> {
    pub(crate) fn of(alloc: Global, items: Vec<A>) -> Result<Shared<A>, AllocError>
        ensures { IfOk result (λ s. s ≡ items.items) }
    {
        Ok(Shared {
            items: Some(Arc::new(alloc, items)?),
        })
    }

    pub(crate) fn share(&self) -> Result<Shared<A>, AllocError>
        ensures { IfOk result (λ s. s ≡ self.now) }
    {
        match &self.items {
            None => Ok(Shared { items: None }),
            Some(items) => Ok(Shared {
                items: Some(Arc::try_clone(items)?),
            }),
        }
    }
}
