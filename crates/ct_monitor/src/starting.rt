//! The state of a monitor that begins at a trusted head.

ghost use Rattle.std.specs.Prelude.{◌≡◌, IfErr, IfOk, length, count_ones};
ghost use Rattle.std.specs.Bool.{MatchBool};
ghost use Rattle.sha2.specs.Sha256.{sha256};
ghost use Rattle.ct_tree.specs.Peaks.{root_of_peaks};
ghost use Rattle.ct_monitor.specs.Starts.{IsMonitorStart, RefusesStart};
ghost use Rattle.ct_monitor.specs.declared.starting.StartFault.TheVariants.{Memory};

use crate::facts::is_in_bytes;
use crate::fitting::root_of;
use crate::writing::write_state;
use crate::{Newest, Peaks, Watcher};
use ct_tree::{Head, Sha256Hash, is_same_digest};
use std::alloc::{AllocError, Global};

/// Why there is no state that begins at a head.
#[derive(Clone, Copy, Debug, PartialEq, Eq)]
pub enum StartFault {
    /// There are not as many subtrees as a tree of the head's size has.
    OtherCount,
    /// The subtrees lead to a different root from the head's.
    OtherRoot,
    /// Memory could not be allocated.
    Memory,
}

impl From<AllocError> for StartFault {
    ghost from_gives = { λ _ fault. fault ≡ Memory };

    fn from(_fault: AllocError) -> StartFault {
        StartFault::Memory
    }
}

// Reports whether there are as many subtrees as a tree with this number of leaves has.
fn is_count(tree_size: u64, subtrees: &[[u8; 32]]) -> bool
    ensures { MatchBool result (length subtrees.now ≡ count_ones tree_size) (length subtrees.now ≡ count_ones tree_size → ⊥) }
{
    subtrees.len() == tree_size.count_ones() as usize
}

// Reports whether subtrees lead to this root.
fn is_root(root: &[u8; 32], subtrees: &[[u8; 32]]) -> bool
    ensures { MatchBool result (root.now ≡ root_of_peaks sha256 subtrees.now) (root.now ≡ root_of_peaks sha256 subtrees.now → ⊥) }
{
    let found = root_of(&Sha256Hash, subtrees);
    is_same_digest(root, &found)
}

/// Returns the state of a monitor that has accepted this trusted head and continues with the leaf after its last one. `subtrees` are the
/// roots of the perfect subtrees of the head's leaves, largest first.
///
/// # Errors
///
/// `OtherCount` or `OtherRoot` if they are not the subtrees of this head. `Memory` if memory runs out.
pub fn start(alloc: Global, head: Head, subtrees: &[[u8; 32]]) -> Result<Vec<u8>, StartFault>
    ensures written { IfOk result (λ bytes. IsMonitorStart sha256 head subtrees.now bytes.items) }
    ensures refused { IfErr result (λ f. RefusesStart sha256 f head subtrees.now) }
{
    if !is_count(head.tree_size, subtrees) {
        return Err(StartFault::OtherCount);
    }
    if !is_root(&head.root, subtrees) {
        return Err(StartFault::OtherRoot);
    }
    let accepted = Vec::from_slice(alloc, subtrees)?;
    let read = Vec::from_slice(alloc, subtrees)?;
    let watcher = Watcher::from_parts(
        Sha256Hash,
        Some(head),
        None,
        Newest {
            accepted: head.timestamp,
            waiting: 0,
        },
        Peaks::from_parts(head.tree_size, accepted),
        Peaks::from_parts(head.tree_size, read),
    );
    is_in_bytes(&watcher);
    let text = write_state(alloc, &watcher)?;
    Ok(text)
}
