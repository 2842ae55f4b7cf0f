//! The new leaves of a head, after those that some perfect subtrees represent.
ghost use Rattle.std.specs.Prelude.{◌≡◌, ◌+◌, ◌<◌, ◌^◌, List, ℕ, ◌++◌, length, map, IfOk, IfErr};
ghost use Rattle.ct_tree.specs.Stack.{Stands};
ghost use Rattle.ct_tree.specs.Tree.{hash_leaf, mth_of_leaves};
ghost use Rattle.ct_monitor.specs.Extended.{IsNoRoot};

use crate::fault::MonitorFault;
use crate::peaks::Peaks;
use ct_tree::{NodeHash, is_same_digest};
use std::alloc::Allocator;

// The perfect subtrees with new leaves after those that they represent, if the root is the root of all of them.
pub(crate) fn extended<A: Allocator + Clone, L: Allocator, H: NodeHash>(
    h: &H,
    peaks: &Peaks<A>,
    leaves: &[Vec<u8, L>],
    root: &[u8; 32],
) -> Result<Peaks<A>, MonitorFault>
    ensures stands { IfOk result (λ p. (D : List (List ℕ)) → length D + length leaves.now < 2 ^ 64 → Stands H.digest peaks.now (map (hash_leaf H.digest) D)
        → Stands H.digest p (map (hash_leaf H.digest) (D ++ map (λ l. l.items) leaves.now))) }
    ensures root { IfOk result (λ p. (D : List (List ℕ)) → length D + length leaves.now < 2 ^ 64 → Stands H.digest peaks.now (map (hash_leaf H.digest) D)
        → root.now ≡ mth_of_leaves H.digest (D ++ map (λ l. l.items) leaves.now)) }
    ensures no_root { IfErr result (λ f. (D : List (List ℕ)) → length D + length leaves.now < 2 ^ 64 → Stands H.digest peaks.now (map (hash_leaf H.digest) D)
        → IsNoRoot H.digest (D ++ map (λ l. l.items) leaves.now) root.now f) }
{
    let mut longer = peaks.copied()?;
    longer.push_leaves(h, leaves)?;
    let computed = longer.root(h);
    if is_same_digest(&computed, root) {
        Ok(longer)
    } else {
        Err(MonitorFault::RootMismatch)
    }
}
