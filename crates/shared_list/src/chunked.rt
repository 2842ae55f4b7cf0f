//! A list in chunks of 128 values and a rest.

ghost use Rattle.std.specs.Prelude.{◌≡◌, ◌<◌, ◌≤◌, [], ◌∷◌, ◌++◌, length, slice_index_or, OnOk, OnErr, IfOk};
ghost use Rattle.shared_list.specs.Flat.{concatenated, AllOf};

use crate::chunk::{CHUNK, Chunk};
use crate::count::one_more;
use crate::parts::Parts;
use crate::share::{Share, share_all, shared_values};
use std::alloc::{AllocError, Global};
use std::marker::Model;

/// A list that only grows. A copy shares its full chunks with it.
#[derive(Drop)]
pub struct Chunked<T> {
    full: Parts<T>,
    last: Vec<T>,
    len: usize,
}

impl<T> Model for Chunked<T> {
    ghost use Rattle.std.specs.Prelude.{List, ◌++◌};
    ghost use Rattle.shared_list.specs.Flat.{concatenated, IsInParts};

    ghost Value = { List T };

    ghost view = { λ r. concatenated r.full ++ r.last.items };

    ghost invariant = { λ r. IsInParts 128 r.full r.last.items r.len };
}

// Makes room in the rest: if it is full, it becomes a chunk.
fn make_room<T: Share>(
    alloc: Global,
    full: &mut Parts<T>,
    last: &mut Vec<T>,
) -> Result<(), AllocError>
    requires each { AllOf 128 full.old }
    requires short { length last.old.items ≤ 128 }
    ensures same { concatenated full.new ++ last.new.items ≡ concatenated full.old ++ last.old.items }
    ensures each { AllOf 128 full.new }
    ensures short { length last.new.items ≤ 128 }
    ensures room { OnOk result (length last.new.items < 128) }
{
    if last.len() < CHUNK {
        return Ok(());
    }
    let chunk = Chunk::of(alloc, last)?;
    full.push(alloc, chunk)?;
    last.clear();
    Ok(())
}

impl<T> Chunked<T> {
    pub(crate) fn new(alloc: Global) -> Chunked<T>
        ensures { result ≡ [] }
    {
        Chunked {
            full: Parts::new(),
            last: Vec::new(alloc),
            len: 0,
        }
    }

    pub(crate) fn len(&self) -> usize
        ensures { result ≡ length self.now }
    {
        self.len
    }

    pub(crate) fn at(&self, index: usize) -> &T
        requires { index < length self.now }
        ensures { result.now ≡ slice_index_or self.now index result.now }
    {
        let chunk = index / CHUNK;
        let full = self.full.values();
        if chunk < full.len() {
            full[chunk].at(index % CHUNK)
        } else {
            &self.last[index % CHUNK]
        }
    }
}

impl<T: Share> Chunked<T> {
    pub(crate) fn push(&mut self, alloc: Global, value: T) -> Result<(), AllocError>
        ensures ok { OnOk result (self.new ≡ self.old ++ value ∷ []) }
        ensures err { OnErr result (self.new ≡ self.old) }
    {
        let len = one_more(alloc, self.len)?;
        make_room(alloc, &mut self.full, &mut self.last)?;
        self.last.push(value)?;
        self.len = len;
        Ok(())
    }

    pub(crate) fn copy(&self, alloc: Global) -> Result<Chunked<T>, AllocError>
        ensures { IfOk result (λ r. r ≡ self.now) }
    {
        let full = self.full.share()?;
        let last = shared_values(alloc, &self.last, CHUNK)?;
        Ok(Chunked {
            full,
            last,
            len: self.len,
        })
    }

    // Adds values equal to those of this list at the end of another list.
    pub(crate) fn share_into(&self, into: &mut Vec<T>) -> Result<(), AllocError>
        ensures { OnOk result (into.new.items ≡ into.old.items ++ self.now) }
    {
        for chunk in self.full.values() {
            share_all(chunk.values(), into)?;
        }
        share_all(&self.last, into)
    }
}

impl<T: Drop> Chunked<T> {
    // Removes all values.
    pub(crate) fn clear(&mut self)
        ensures { self.new ≡ [] }
    {
        self.full.clear();
        self.last.clear();
        self.len = 0;
    }
}
