//! One step: it takes a state line, the right edge that it names and a batch, and returns receipts, a staged batch of objects and the next
//! line.

ghost use Rattle.std.specs.Prelude.{◌≡◌, ◌⊎◌, ◌+◌, ◌≤◌, ◌^◌, ℕ, List, length, map, All, ◌++◌, ◌∷◌, [], ◌%◌, IfOk, MatchOption, MatchResult};
ghost use Rattle.std.specs.Bool.{MatchBool};
ghost use Rattle.ct_codec.specs.declared.refusal.Refusal.TheVariants as Refusal;
ghost use Rattle.ct_data_tiles.specs.Rows.{IsPartialTile, IsDataRow};
ghost use Rattle.ct_step.specs.Growths.{IsState, MayGrow};
ghost use Rattle.ct_step.specs.Believed.{BelievesState};
ghost use Rattle.ct_step.specs.declared.growth.GrowthFault.TheVariants.{Refused};
ghost use Rattle.ct_data_tiles.specs.TileLeaf.{Tiled};
ghost use Rattle.ct_tiles.specs.Tiles.{rows};
ghost use Rattle.ct_data_tiles.specs.Rows.{IsDataRow};
ghost use Rattle.ct_step.specs.Bundle.{bundle_text};
ghost use Rattle.ct_step.specs.Objects.{level_objects, data_objects, row_tiles, FitsInBundle};
ghost use Rattle.ct_step.specs.Entries.{tree_leaves, texts_of};
ghost use Rattle.ct_step.specs.Steps.{line_head, of_edge, line_behind, IsEdgeOf, IsStepFrom, IsTiledStep, MayStep, StopsStep, StopsMade, StopsTiles, StopsState, AreBytesOf, AreReadFrom, tile_hashes};
ghost use Rattle.ct_step.specs.declared.step.StepFault.TheVariants.{Growth};

use crate::batch::Batch;
use crate::objects::{fits, push_entries, push_levels};
use crate::{EdgeFault, GrowthFault, Receipt, State, StateLine, grow};
use ct_codec::{Refusal, tree_head_signature_input};
use ct_data_tiles::{DataRow, add_entries};
use ct_tiles::Row;
use ct_tree::{Head, NodeHash, is_same_digest};
use std::alloc::{AllocError, AllocFailed, Global};
use thiserror::Error;

/// The result of a step. Nothing of it may be shown before the lock took its line in place of the one that it was made from.
#[derive(Drop)]
pub struct Step {
    /// A receipt for each submission, in order.
    pub receipts: Vec<Receipt>,
    /// The bytes to be signed for the new head: 50 bytes (TreeHeadSignature, RFC 6962 section 3.5).
    pub signed: Vec<u8>,
    /// The objects that are new or change, as one byte string, from which [`crate::resume`] returns them.
    pub bundle: Vec<u8>,
    /// The bytes of the new partial data tile, which are empty if there is none.
    pub partial: Vec<u8>,
    /// The new state: its size, timestamp and root are those of the new head.
    pub line: StateLine,
}

/// The reason why there is no step.
#[derive(Clone, Copy, PartialEq, Eq, Debug, Error)]
pub enum StepFault {
    /// The received partial tiles are not believed.
    #[error("the partial tiles are not those of the state")]
    Edge,
    /// The digest of the received partial data tile is not the line's.
    #[error("the partial data tile is not that of the state")]
    Entries,
    /// The log does not grow.
    #[error("{0}")]
    Growth(GrowthFault),
    /// A data tile would have 2^32 bytes or more, and its length has four bytes.
    #[error("a data tile would be too long")]
    TooLong,
}

impl From<EdgeFault> for StepFault {
    ghost from_gives = { λ fault e. e ≡ of_edge fault };

    fn from(fault: EdgeFault) -> StepFault {
        match fault {
            EdgeFault::OtherWidths | EdgeFault::OtherRoot => StepFault::Edge,
            EdgeFault::Memory => StepFault::Growth(GrowthFault::Refused(Refusal::Memory)),
        }
    }
}

impl From<GrowthFault> for StepFault {
    ghost from_gives = { λ fault e. e ≡ Growth fault };

    fn from(fault: GrowthFault) -> StepFault {
        StepFault::Growth(fault)
    }
}

impl From<Refusal> for StepFault {
    ghost from_gives = { λ refusal e. e ≡ Growth (Refused refusal) };

    fn from(refusal: Refusal) -> StepFault {
        StepFault::Growth(GrowthFault::Refused(refusal))
    }
}

impl From<AllocError> for StepFault {
    ghost from_gives = { λ _ e. e ≡ Growth (Refused Refusal.Memory) };

    fn from(e: AllocError) -> StepFault {
        StepFault::Growth(GrowthFault::Refused(Refusal::from(e)))
    }
}

impl<T: Drop> From<AllocFailed<T>> for StepFault {
    ghost from_gives = { λ _ e. e ≡ Growth (Refused Refusal.Memory) };

    fn from(e: AllocFailed<T>) -> StepFault {
        StepFault::Growth(GrowthFault::Refused(Refusal::from(e)))
    }
}

// Returns the hashes of which a tile's bytes consist, or None if a hash is incomplete.
fn hashes_of(alloc: Global, bytes: &[u8]) -> Result<Option<Vec<[u8; 32]>>, AllocError>
    ensures { IfOk result (λ found. MatchOption found (length bytes.now % 32 ≡ 0 → ⊥)
        (λ hashes. (length bytes.now % 32 ≡ 0) × (hashes.items ≡ tile_hashes bytes.now))) }
{
    let (hashes, rest) = bytes.as_chunks::<32>();
    if !rest.is_empty() {
        return Ok(None);
    }
    Ok(Some(Vec::from_slice(alloc, hashes)?))
}

// Returns the hashes of the tiles with these bytes.
fn tiles_of(alloc: Global, edge: &[Vec<u8>]) -> Result<Vec<Vec<[u8; 32]>>, StepFault>
    ensures { MatchResult result (λ tiles. AreReadFrom (map (λ b. b.items) edge.now) (map (λ t. t.items) tiles.items))
        (StopsTiles (map (λ b. b.items) edge.now)) }
{
    let mut tiles = Vec::new(alloc);
    for bytes in edge {
        let Some(hashes) = hashes_of(alloc, bytes)? else {
            return Err(StepFault::Edge);
        };
        tiles.push(hashes)?;
    }
    Ok(tiles)
}

// Returns the state of a line with the partial tiles that have these bytes.
fn state_of<H: NodeHash>(
    alloc: Global,
    h: &H,
    line: &StateLine,
    edge: &[Vec<u8>],
) -> Result<State, StepFault>
    ensures { MatchResult result
        (λ s. (T : List (List (List ℕ))) × AreBytesOf T (map (λ b. b.items) edge.now) × BelievesState H.digest (line_head line.now) T s)
        (StopsState H.digest line.now (map (λ b. b.items) edge.now)) }
{
    let tiles = tiles_of(alloc, edge)?;
    let head = Head {
        tree_size: line.tree_size,
        timestamp: line.timestamp,
        root: line.root,
    };
    Ok(State::believed(alloc, h, &head, tiles)?)
}

// Reports whether bytes have this digest.
fn has_digest<H: NodeHash>(h: &H, bytes: &[u8], digest: &[u8; 32]) -> bool
    ensures { MatchBool result (H.digest bytes.now ≡ digest.now) (H.digest bytes.now ≡ digest.now → ⊥) }
{
    is_same_digest(&h.hash(&[bytes]), digest)
}

// Returns the staged batch of the tiles that are new or change if `count` leaves are added to a log of `size` leaves.
fn bundle_of(
    alloc: Global,
    size: u64,
    count: u64,
    level_rows: &[Row],
    row: &DataRow,
) -> Result<Vec<u8>, AllocError>
    requires size { size + count ≤ 2 ^ 40 }
    requires short { All FitsInBundle (map (λ t. t.items) row.now.full.items ++ row.now.partial.items ∷ []) }
    ensures { IfOk result (λ b. (H : List ℕ → List ℕ) (D B L N : List (List ℕ)) → size ≡ length D → row_tiles level_rows.now ≡ rows H 256 8 D B
        → size ≡ length L → count ≡ length N → IsDataRow L N row.now → b.items ≡ bundle_text (level_objects H 8 D B ++ data_objects L N)) }
{
    let mut bundle = Vec::new(alloc);
    push_levels(alloc, &mut bundle, size, level_rows)?;
    push_entries(alloc, &mut bundle, size, count, row)?;
    Ok(bundle)
}

// Returns the line after another one: that of a head whose step has this staged batch and this partial data tile.
fn next_line<H: NodeHash>(
    alloc: Global,
    h: &H,
    line: &StateLine,
    head: &Head,
    bundle: &[u8],
    partial: &[u8],
) -> Result<StateLine, AllocError>
    ensures { IfOk result (λ next. next ≡ line_behind H.digest line.now head.now bundle.now partial.now) }
{
    let text = line.write(alloc)?;
    Ok(StateLine {
        tree_size: head.tree_size,
        timestamp: head.timestamp,
        root: head.root,
        bundle: h.hash(&[bundle]),
        data_tile: h.hash(&[partial]),
        before: h.hash(&[text.as_bytes()]),
    })
}

// Makes the step from a state whose right edge and partial data tile are believed.
fn step_of<H: NodeHash>(
    alloc: Global,
    h: &H,
    line: &StateLine,
    state: &State,
    entries: &[u8],
    batch: &Batch,
    now: u64,
) -> Result<Step, StepFault>
    requires { state.now.edge.0 ≡ line.now.tree_size }
    ensures may { MatchResult result (λ _. MayGrow state.now (length batch.now) now) (StopsMade H.digest line.now state.now entries.now batch.now now) }
    ensures from { IfOk result (λ s. IsStepFrom H.digest line.now batch.now now s) }
    ensures step { IfOk result (λ s. (E : List Tiled) → IsState H.digest state.now (tree_leaves E) → IsPartialTile (texts_of E) line.now.tree_size entries.now
        → IsTiledStep H.digest line.now E batch.now now s) }
{
    let growth = grow(alloc, h, state, batch.submissions(), now)?;
    let size = line.tree_size;
    let texts = batch.texts(alloc, size, now)?;
    let row = add_entries(alloc, size, entries, &texts)?;
    if !fits(&row) {
        return Err(StepFault::TooLong);
    }
    let bundle = bundle_of(alloc, size, texts.len() as u64, &growth.rows, &row)?;
    let next = next_line(alloc, h, line, &growth.head, &bundle, &row.partial)?;
    Ok(Step {
        receipts: growth.receipts,
        signed: tree_head_signature_input(alloc, now, next.tree_size, &next.root)?,
        bundle,
        partial: row.partial,
        line: next,
    })
}

/// Adds a batch to a log at a timestamp, in milliseconds. The log's state is this line. `edge` has the bytes of the partial tile of each of
/// its 8 levels, level 0 first, which are empty if a level has no partial tile. `entries` has the bytes of its partial data tile, which are
/// empty if it has none. Whoever passes these need not be trusted.
///
/// Allocates the new tiles and data tiles, three times over, the receipts and the edge.
///
/// # Errors
/// In this order:
/// - `Edge` if the partial tiles are not as wide as those of the line's size, or do not lead to its root
/// - `Entries` if the digest of the partial data tile is not the line's
/// - `Growth(ClockBack)` if the timestamp is not later than the line's
/// - `Growth(Full)` if the log would have more than 2^40 leaves
/// - `TooLong` if a data tile would have 2^32 bytes or more
///
/// `Growth(Refused(Memory))` if memory could not be allocated.
pub fn take_step<H: NodeHash>(
    alloc: Global,
    h: &H,
    line: &StateLine,
    edge: &[Vec<u8>],
    entries: &[u8],
    batch: &Batch,
    now: u64,
) -> Result<Step, StepFault>
    ensures may { MatchResult result (λ _. MayStep H.digest line.now (map (λ b. b.items) edge.now) entries.now batch.now now)
        (StopsStep H.digest line.now (map (λ b. b.items) edge.now) entries.now batch.now now) }
    ensures from { IfOk result (λ s. IsStepFrom H.digest line.now batch.now now s) }
    ensures step { IfOk result (λ s. (E : List Tiled) → IsEdgeOf H.digest E line.now.tree_size (map (λ b. b.items) edge.now) entries.now
        → IsTiledStep H.digest line.now E batch.now now s) }
{
    let state = state_of(alloc, h, line, edge)?;
    if !has_digest(h, entries, &line.data_tile) {
        return Err(StepFault::Entries);
    }
    step_of(alloc, h, line, &state, entries, batch, now)
}
