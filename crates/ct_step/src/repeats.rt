//! Removes the repeats from a batch.

ghost use Rattle.std.specs.Prelude.{◌≡◌, ◌++◌, List, [], ◌∷◌, map, IfOk, OnOk};
ghost use Rattle.ct_codec.specs.Submitted.{identity_of};
ghost use Rattle.ct_step.specs.StepBytes.{entry_parts};
ghost use Rattle.ct_step.specs.StepRepeats.{BatchEntry, first_of_each, places_of_all};
ghost use Rattle.ct_step.specs.SplitSoFar.{IsSplit};

use crate::Batch;
use crate::entry::Entry;
use crate::fault::NotMade;
use ct_codec::{Submission, identity};
use indexmap::IndexSet;
use std::alloc::{AllocError, Global};

// A batch without its repeats, and for each entry of the whole batch the index in it of the one with the same identity.
#[derive(Drop)]
pub(crate) struct SplitBatch {
    pub(crate) firsts: Batch,
    pub(crate) places: Vec<usize>,
}

// Returns the bytes that are a submission's identity.
fn identity_bytes(alloc: Global, submission: &Submission) -> Result<Vec<u8>, AllocError>
    ensures { IfOk result (λ b. b.items ≡ identity_of submission.now) }
{
    match identity(alloc, submission) {
        Ok(bytes) => Ok(bytes),
        Err(refusal) => {
            NotMade::from(refusal).told?;
            unreachable!()
        }
    }
}

// The state of the split after the first entries of a batch: their identities, the first submission of each, with its chain, and for each
// entry the index among these.
#[derive(Drop)]
struct Splitting {
    identities: IndexSet<Vec<u8>>,
    submissions: Vec<Submission>,
    chains: Vec<Vec<[u8; 32]>>,
    places: Vec<usize>,
}

// Takes one more entry, which stays if it is the first one with its identity. The identity is looked up once in a table.
fn take_entry(alloc: Global, split: &mut Splitting, entry: Entry) -> Result<(), AllocError>
    ensures { OnOk result ((seen : List BatchEntry) → IsSplit seen split.old → IsSplit (seen ++ entry_parts entry ∷ []) split.new) }
{
    let (place, is_first) = split
        .identities
        .insert_full(identity_bytes(alloc, &entry.submission)?)?;
    split.places.push(place)?;
    if is_first {
        split.submissions.push(entry.submission)?;
        split.chains.push(entry.chain)?;
    }
    Ok(())
}

// Removes the repeats from a batch: of the entries with the same identity, the first one stays.
pub(crate) fn split_batch(alloc: Global, batch: Vec<Entry>) -> Result<SplitBatch, AllocError>
    ensures firsts { IfOk result (λ s. s.firsts ≡ first_of_each [] (map entry_parts batch.items)) }
    ensures places { IfOk result (λ s. s.places.items ≡ places_of_all [] (map entry_parts batch.items)) }
{
    let mut split = Splitting {
        identities: IndexSet::new(alloc),
        submissions: Vec::new(alloc),
        chains: Vec::new(alloc),
        places: Vec::new(alloc),
    };
    for entry in batch {
        take_entry(alloc, &mut split, entry)?;
    }
    match Batch::new(split.submissions, split.chains) {
        Some(firsts) => Ok(SplitBatch {
            firsts,
            places: split.places,
        }),
        None => unreachable!(),
    }
}
