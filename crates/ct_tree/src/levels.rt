//! The levels of a growing tree: lists of the roots of its perfect subtrees.
ghost use Rattle.std.specs.Prelude.{◌≡◌, ◌+◌, ◌-◌, ◌<◌, ◌≤◌, [], ◌∷◌, ◌++◌, length, get_or, OnOk, OnErr, IfOk};
ghost use Rattle.ct_tree.specs.Stored.{Stores, IsWhole, HaveSameLevels, HaveSameLevelsBut};

use crate::hash::{NodeHash, node_hash};
use shared_list::SharedList;
use std::alloc::{AllocError, Global};

// The node at an index of a level. The lists are those of the levels above the leaves.
pub(crate) fn stored(
    leaves: &SharedList<[u8; 32]>,
    above: &[SharedList<[u8; 32]>],
    level: usize,
    index: usize,
) -> [u8; 32]
    requires leaf { level ≡ 0 → index < length leaves.now }
    requires inner { 0 < level → index < length (get_or above.now (level - 1) []) }
    ensures leaf { level ≡ 0 → result ≡ get_or leaves.now index [] }
    ensures inner { 0 < level → result ≡ get_or (get_or above.now (level - 1) []) index [] }
{
    if level == 0 {
        *leaves.at(index)
    } else {
        *above[level - 1].at(index)
    }
}

// Adds an empty list, if this level is the first one without a list.
fn reach(
    alloc: Global,
    above: &mut Vec<SharedList<[u8; 32]>>,
    level: usize,
) -> Result<(), AllocError>
    requires { level ≤ length above.old.items }
    ensures same { HaveSameLevels above.new.items above.old.items }
    ensures there { OnOk result (level < length above.new.items) }
{
    if level == above.len() {
        above.push(SharedList::new(alloc))?;
    }
    Ok(())
}

// Adds a node at the end of a level's list, if the index is the list's length. The list may be the first one that is missing.
fn put(
    alloc: Global,
    above: &mut Vec<SharedList<[u8; 32]>>,
    level: usize,
    index: usize,
    node: &[u8; 32],
) -> Result<(), AllocError>
    requires { level ≤ length above.old.items }
    ensures others { HaveSameLevelsBut level above.new.items above.old.items }
    ensures added { OnOk result (length (get_or above.old.items level []) ≡ index
        → get_or above.new.items level [] ≡ get_or above.old.items level [] ++ node.now ∷ []) }
    ensures there { OnOk result ((length (get_or above.old.items level []) ≡ index → ⊥) → get_or above.new.items level [] ≡ get_or above.old.items level []) }
    ensures err { OnErr result (HaveSameLevels above.new.items above.old.items) }
{
    reach(alloc, above, level)?;
    if above[level].len() == index {
        above[level].push(alloc, *node)?;
    }
    Ok(())
}

// Stores the roots of the perfect subtrees that end with the last leaf, if they are not stored yet. If memory runs out, some of them may
// have been stored.
pub(crate) fn complete<H: NodeHash>(
    h: &H,
    alloc: Global,
    leaves: &SharedList<[u8; 32]>,
    above: &mut Vec<SharedList<[u8; 32]>>,
) -> Result<(), AllocError>
    requires { Stores H.digest above.old.items leaves.now }
    ensures stored { Stores H.digest above.new.items leaves.now }
    ensures whole { OnOk result (IsWhole above.new.items leaves.now) }
{
    if leaves.len() == 0 {
        return Ok(());
    }
    let mut index = leaves.len() - 1;
    let mut node = *leaves.at(index);
    let mut level = 0;
    while index % 2 == 1 {
        let left = stored(leaves, above, level, index - 1);
        node = node_hash(h, &left, &node);
        index /= 2;
        put(alloc, above, level, index, &node)?;
        level += 1;
    }
    Ok(())
}

// Equal lists.
pub(crate) fn copied(
    alloc: Global,
    above: &[SharedList<[u8; 32]>],
) -> Result<Vec<SharedList<[u8; 32]>>, AllocError>
    ensures { IfOk result (λ v. v.items ≡ above.now) }
{
    let mut lists = Vec::with_capacity(alloc, above.len())?;
    for list in above {
        lists.push(list.copy(alloc)?)?;
    }
    Ok(lists)
}
