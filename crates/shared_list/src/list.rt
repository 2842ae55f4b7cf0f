//! The list: blocks, and a row with the values after them.

ghost use Rattle.std.specs.Prelude.{◌≡◌, ◌<◌, ◌≤◌, [], ◌∷◌, ◌++◌, length, take, drop, ◌-◌, ℕ, slice_index_or, slice_get, OnOk, OnErr, IfOk};
ghost use Rattle.std.specs.Option.{option_copied};
ghost use Rattle.shared_list.specs.Flat.{concatenated, AllOf};

use crate::chunk::Chunk;
use crate::chunked::Chunked;
use crate::count::one_more;
use crate::iter::Iter;
use crate::parts::Parts;
use crate::share::Share;
use std::alloc::{AllocError, Global};
use std::marker::Model;

// The number of values in a block.
const BLOCK: usize = 16384;

/// A list that only grows, and whose copies share what they have in common with it. Contracts see the plain list.
///
/// Values are in blocks of 16,384, then in chunks of 128, and at most 128 are in a rest. A copy shares the row of blocks, the row of
/// chunks, and each value of the rest.
#[derive(Drop)]
pub struct SharedList<T> {
    blocks: Parts<T>,
    row: Chunked<T>,
    len: usize,
}

impl<T> Model for SharedList<T> {
    ghost use Rattle.std.specs.Prelude.{List, ◌++◌};
    ghost use Rattle.shared_list.specs.Flat.{concatenated, IsInParts};

    ghost Value = { List T };

    ghost view = { λ s. concatenated s.blocks ++ s.row };

    ghost invariant = { λ s. IsInParts 16384 s.blocks s.row s.len };
}

// A block of values equal to those of a row.
fn block_of<T: Share>(alloc: Global, row: &Chunked<T>) -> Result<Chunk<T>, AllocError>
    ensures { IfOk result (λ block. block ≡ row.now) }
{
    let mut values = Vec::with_capacity(alloc, BLOCK)?;
    row.share_into(&mut values)?;
    let block = Chunk::new(alloc, values)?;
    Ok(block)
}

// Makes room in the row: if it is full, it becomes a block.
fn make_room<T: Share>(
    alloc: Global,
    blocks: &mut Parts<T>,
    row: &mut Chunked<T>,
) -> Result<(), AllocError>
    requires each { AllOf 16384 blocks.old }
    requires short { length row.old ≤ 16384 }
    ensures same { concatenated blocks.new ++ row.new ≡ concatenated blocks.old ++ row.old }
    ensures each { AllOf 16384 blocks.new }
    ensures short { length row.new ≤ 16384 }
    ensures room { OnOk result (length row.new < 16384) }
{
    if row.len() < BLOCK {
        return Ok(());
    }
    let block = block_of(alloc, row)?;
    blocks.push(alloc, block)?;
    row.clear();
    Ok(())
}

impl<T> SharedList<T> {
    /// An empty list. It takes no memory until the first push.
    pub fn new(alloc: Global) -> SharedList<T>
        ensures { result ≡ [] }
    {
        SharedList {
            blocks: Parts::new(),
            row: Chunked::new(alloc),
            len: 0,
        }
    }

    /// The number of values.
    pub fn len(&self) -> usize
        ensures { result ≡ length self.now }
    {
        self.len
    }

    /// The value at an index.
    pub fn at(&self, index: usize) -> &T
        requires { index < length self.now }
        ensures { result.now ≡ slice_index_or self.now index result.now }
    {
        let block = index / BLOCK;
        let blocks = self.blocks.values();
        if block < blocks.len() {
            blocks[block].at(index % BLOCK)
        } else {
            self.row.at(index % BLOCK)
        }
    }

    /// The value at an index, or `None` past the end.
    pub fn get(&self, index: usize) -> Option<&T>
        ensures { option_copied result ≡ slice_get self.now index }
    {
        if index < self.len {
            Some(self.at(index))
        } else {
            None
        }
    }

    /// The last value, or `None` if the list is empty.
    pub fn last(&self) -> Option<&T>
        ensures { option_copied result ≡ slice_get self.now (length self.now - 1) }
    {
        if self.len == 0 {
            None
        } else {
            Some(self.at(self.len - 1))
        }
    }

    /// The values in order.
    pub fn iter(&self) -> Iter<'_, T>
        ensures { result ≡ self.now }
    {
        self.iter_from(0)
    }

    /// The values from an index on, in order. There are none if the index is past the end.
    pub fn iter_from(&self, index: usize) -> Iter<'_, T>
        ensures { result ≡ drop index self.now }
    {
        Iter::from(self, index)
    }
}

impl<'a, T> IntoIterator for &'a SharedList<T> {
    type Item = &'a T;

    type IntoIter = Iter<'a, T>;

    ghost into_iter_gives = { λ list it. it ≡ list.now };

    fn into_iter(self) -> Iter<'a, T> {
        self.iter()
    }
}

impl<T: Share> SharedList<T> {
    /// Adds a value at the end. If memory runs out, nothing changes.
    pub fn push(&mut self, alloc: Global, value: T) -> Result<(), AllocError>
        ensures ok { OnOk result (self.new ≡ self.old ++ value ∷ []) }
        ensures err { OnErr result (self.new ≡ self.old) }
    {
        let len = one_more(alloc, self.len)?;
        make_room(alloc, &mut self.blocks, &mut self.row)?;
        self.row.push(alloc, value)?;
        self.len = len;
        Ok(())
    }

    /// Adds values equal to these at the end, in order. If memory runs out, the first values of them may have been added.
    pub fn extend_from_slice(&mut self, alloc: Global, values: &[T]) -> Result<(), AllocError>
        ensures ok { OnOk result (self.new ≡ self.old ++ values.now) }
        ensures err { OnErr result ((n : ℕ) × (self.new ≡ self.old ++ take n values.now)) }
    {
        for value in values {
            self.push(alloc, value.share()?)?;
        }
        Ok(())
    }

    /// An equal list.
    pub fn copy(&self, alloc: Global) -> Result<SharedList<T>, AllocError>
        ensures { IfOk result (λ s. s ≡ self.now) }
    {
        let blocks = self.blocks.share()?;
        let row = self.row.copy(alloc)?;
        Ok(SharedList {
            blocks,
            row,
            len: self.len,
        })
    }
}
