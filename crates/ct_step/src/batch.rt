//! The submissions of a step, and the texts of its tile leaves.

ghost use Rattle.std.specs.Prelude.{◌≡◌, ◌+◌, ◌<◌, ◌≤◌, ◌^◌, ℕ, List, length, map, All, IfOk, IsOkUnless, MatchOption};
ghost use Rattle.std.specs.Bool.{MatchBool};
ghost use Rattle.std.specs.List.{zip};
ghost use Rattle.ct_codec.specs.Submitted.{Submitted};
ghost use Rattle.ct_codec.specs.declared.refusal.Refusal.TheVariants as Refusal;
ghost use Rattle.ct_data_tiles.specs.TileLeaf.{tile_leaf_text};
ghost use Rattle.ct_step.specs.Entries.{tiled_at, tiled_leaves, texts_of, AreShort, IsBatchOf};

use ct_codec::{Refusal, Submission, index_extension};
use ct_data_tiles::{push_tile_leaf, tile_leaf_of};
use std::alloc::Global;
use std::marker::Model;

/// Submissions, each with the SHA-256 fingerprints of its chain's issuers in order, at most 2,047. A submission's own chain has only the
/// certificate or the precertificate. Contracts see the list of the pairs.
#[derive(Drop)]
pub struct Batch {
    submissions: Vec<Submission>,
    chains: Vec<Vec<[u8; 32]>>,
}

impl Model for Batch {
    ghost Value = { List (Submitted × List (List ℕ)) };

    ghost view = { λ b. zip b.submissions.items (map (λ c. c.items) b.chains.items) };

    ghost invariant = { λ b. IsBatchOf (length b.submissions.items) (map (λ c. c.items) b.chains.items) };
}

// Reports whether each chain has at most 2,047 fingerprints.
fn are_short(chains: &[Vec<[u8; 32]>]) -> bool
    ensures { MatchBool result (All AreShort (map (λ c. c.items) chains.now)) (All AreShort (map (λ c. c.items) chains.now) → ⊥) }
{
    for chain in chains {
        if chain.len() >= 2048 {
            return false;
        }
    }
    true
}

// Returns the text of a submission's tile leaf at an index.
fn text_of(
    alloc: Global,
    submission: &Submission,
    chain: &[[u8; 32]],
    leaf_index: u64,
    now: u64,
) -> Result<Vec<u8>, Refusal>
    requires index { leaf_index < 2 ^ 40 }
    requires chain { length chain.now < 2 ^ 11 }
    ensures text { IfOk result (λ t. t.items ≡ tile_leaf_text (tiled_at now (submission.now, chain.now) leaf_index)) }
    ensures memory { IsOkUnless result Refusal.Memory }
{
    let extension = index_extension(leaf_index);
    let leaf = tile_leaf_of(submission, now, &extension, chain);
    let mut text = Vec::new(alloc);
    push_tile_leaf(&mut text, &leaf)?;
    Ok(text)
}

impl Batch {
    /// Returns the batch of these submissions and chains, the first chain for the first submission. Returns None if their numbers differ,
    /// or if a chain has more than 2,047 fingerprints. Allocates no memory.
    pub fn new(submissions: Vec<Submission>, chains: Vec<Vec<[u8; 32]>>) -> Option<Batch>
        ensures { MatchOption result (IsBatchOf (length submissions.items) (map (λ c. c.items) chains.items) → ⊥)
            (λ b. b ≡ zip submissions.items (map (λ c. c.items) chains.items)) }
    {
        if chains.len() != submissions.len() || !are_short(&chains) {
            return None;
        }
        Some(Batch {
            submissions,
            chains,
        })
    }

    // Returns the submissions, in order.
    pub(crate) fn submissions(&self) -> &[Submission]
        ensures { result.now ≡ map (λ e. e.0) self.now }
    {
        &self.submissions
    }

    // Returns the texts of the tile leaves, from an index on.
    pub(crate) fn texts(&self, alloc: Global, first: u64, now: u64) -> Result<Vec<Vec<u8>>, Refusal>
        requires { first + length self.now ≤ 2 ^ 40 }
        ensures texts { IfOk result (λ v. map (λ t. t.items) v.items ≡ texts_of (tiled_leaves now first self.now)) }
        ensures memory { IsOkUnless result Refusal.Memory }
    {
        let mut texts = Vec::new(alloc);
        for i in 0..self.submissions.len() {
            let text = text_of(
                alloc,
                &self.submissions[i],
                &self.chains[i],
                first + i as u64,
                now,
            )?;
            texts.push(text)?;
        }
        Ok(texts)
    }
}
