//! One step of a tiled log.

ghost use Rattle.std.specs.Prelude.{◌≡◌, ℕ, List, length, map, IfOk, MatchResult};
ghost use Rattle.ct_codec.specs.Submitted.{entry_of};
ghost use Rattle.ct_step.specs.Growths.{IsState, IsGrowth, IsGrownFrom, MayGrow, StopsGrowth};
ghost use Rattle.ct_codec.specs.declared.refusal.Refusal.TheVariants as Refusal;
ghost use Rattle.ct_step.specs.declared.growth.GrowthFault.TheVariants.{Refused};

use crate::receipts::{Receipt, leaf_hashes, receipts};
use ct_codec::{Refusal, Submission};
use ct_tiles::{Edge, Row, take_in};
use ct_tree::{Head, NodeHash};
use std::alloc::{AllocError, Global};
use thiserror::Error;

/// Everything that is kept of a log: at most 65 KB. Any edge and any timestamp are a `State`: each contract holds for every list of leaves
/// whose state it is.
#[derive(Drop)]
pub struct State {
    /// The right edge of the log's tiles.
    pub edge: Edge,
    /// The timestamp of the last head, in milliseconds.
    pub timestamp: u64,
}

/// The result of a step.
#[derive(Drop)]
pub struct Growth {
    /// The index of the first new leaf, which is the previous number of leaves.
    pub first: u64,
    /// A receipt for each submission, in order.
    pub receipts: Vec<Receipt>,
    /// For each of the 8 levels, its hash tiles from the one on that was partial: all that change or are new.
    pub rows: Vec<Row>,
    /// The new head, to be signed.
    pub head: Head,
    /// The state afterwards.
    pub state: State,
}

/// The reason why there is no step.
#[derive(Clone, Copy, PartialEq, Eq, Debug, Error)]
pub enum GrowthFault {
    /// The timestamp is not later than that of the last head.
    #[error("the moment is not later than that of the last head")]
    ClockBack,
    /// The log would have more than 2^40 leaves, and a leaf's index has 40 bits.
    #[error("the log is full")]
    Full,
    /// Memory could not be allocated: always the codec's refusal `Memory`.
    #[error("there is no memory for the step: {0}")]
    Refused(Refusal),
}

impl From<Refusal> for GrowthFault {
    ghost from_gives = { λ refusal fault. fault ≡ Refused refusal };

    fn from(refusal: Refusal) -> GrowthFault {
        GrowthFault::Refused(refusal)
    }
}

impl From<AllocError> for GrowthFault {
    ghost from_gives = { λ _ fault. fault ≡ Refused Refusal.Memory };

    fn from(e: AllocError) -> GrowthFault {
        GrowthFault::Refused(Refusal::from(e))
    }
}

/// Adds submissions to the log at a timestamp, in milliseconds, in the order of the batch. The given state does not change.
///
/// Allocates the receipts and the tiles that change or are new.
///
/// # Errors
/// In this order: `ClockBack` if the timestamp is not later than the state's (RFC 6962, section 3.5); `Full` if the log would have more
/// than 2^40 leaves; `Refused(Memory)` if memory could not be allocated.
pub fn grow<H: NodeHash>(
    alloc: Global,
    h: &H,
    state: &State,
    batch: &[Submission],
    now: u64,
) -> Result<Growth, GrowthFault>
    ensures may { MatchResult result (λ _. MayGrow state.now (length batch.now) now) (StopsGrowth state.now (length batch.now) now) }
    ensures grown { IfOk result (λ g. IsGrownFrom state.now (map entry_of batch.now) now g) }
    ensures growth { IfOk result (λ g. (D : List (List ℕ)) → IsState H.digest state.now D → IsGrowth H.digest D (map entry_of batch.now) now g) }
{
    if now <= state.timestamp {
        return Err(GrowthFault::ClockBack);
    }
    let first = state.edge.size();
    let count = batch.len() as u64;
    let limit: u64 = 1_099_511_627_776;
    if first > limit || count > limit - first {
        return Err(GrowthFault::Full);
    }
    let receipts = receipts(alloc, batch, first, now)?;
    let hashes = leaf_hashes(alloc, h, &receipts)?;
    let advance = take_in(alloc, h, &state.edge, &hashes)?;
    let root = advance.edge.root(alloc, h)?;
    Ok(Growth {
        first,
        receipts,
        rows: advance.rows,
        head: Head {
            tree_size: first + count,
            timestamp: now,
            root,
        },
        state: State {
            edge: advance.edge,
            timestamp: now,
        },
    })
}
