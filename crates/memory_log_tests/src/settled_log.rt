// Calls of the tests to a core.

ghost use Rattle.std.specs.Prelude.{◌≡◌, IfOk};
ghost use Rattle.ct_core.specs.Leaf.{leaf_at};
ghost use Rattle.ct_core.specs.Tree.{sha256_leaf};

use ct_codec::{Item, Refusal, Submission, leaf_input};
use ct_core::{Core, Query, Reply, Settled};
use ct_tree::{Head, Sha256Hash, leaf_hash};
use std::alloc::Global;

// Returns a chain of one certificate.
pub(crate) fn submission(heap: Global, certificate: &[u8]) -> Result<Submission, Refusal> {
    let mut chain = Vec::new(heap);
    chain.push(Vec::from_slice(heap, certificate)?)?;
    Submission::x509(chain)
}

// Returns the hash of the submission's leaf at that timestamp.
#[tactic(auto, unfolding(ct_core::specs::Leaf::leaf_at, ct_core::specs::Tree::sha256_leaf))]
fn hashed(rt: &HostRuntime, submission: &Submission, now: u64) -> Result<[u8; 32], Refusal>
    ensures { IfOk result (λ h. h ≡ sha256_leaf (leaf_at submission.now now)) }
{
    let leaf = leaf_input(rt.alloc(), submission, now)?;
    Ok(leaf_hash(&Sha256Hash, &leaf))
}

// Settles a submission. If memory is refused, it tries the item that came back once more.
pub(crate) fn settle_submission(
    rt: &HostRuntime,
    core: &mut Core,
    (front, ticket): (u16, u64),
    submission: Submission,
    now: u64,
) -> Result<Settled, Refusal> {
    let hash = hashed(rt, &submission, now)?;
    let item = Item {
        front,
        ticket,
        submission,
    };
    match core.settle_one(rt.alloc(), item, hash, now) {
        Ok(settled) => Ok(settled),
        Err((Refusal::Memory, item)) => {
            let again = core.settle_one(rt.alloc(), item, hash, now);
            again.map_err(|(refusal, _)| refusal)
        }
        Err((refusal, _)) => Err(refusal),
    }
}

// Settles a certificate.
pub(crate) fn settle(
    rt: &HostRuntime,
    core: &mut Core,
    by: (u16, u64),
    certificate: &[u8],
    now: u64,
) -> Result<Settled, Refusal> {
    let submission = submission(rt.alloc(), certificate)?;
    settle_submission(rt, core, by, submission, now)
}

// Publishes a head. If memory is refused, it tries once more.
pub(crate) fn publish(rt: &HostRuntime, core: &mut Core, now: u64) -> Result<Head, Refusal> {
    match core.publish(rt.alloc(), now) {
        Err(Refusal::Memory) => core.publish(rt.alloc(), now),
        other => other,
    }
}

pub(crate) fn record(front: u16, ticket: u64, index: u64, first: bool) -> Result<Settled, Refusal> {
    Ok(Settled {
        front,
        ticket,
        index,
        first,
    })
}

pub(crate) fn asked(rt: &HostRuntime, core: &Core, query: Query) -> Result<Reply, Refusal> {
    core.published().answer(rt.alloc(), &query)
}

// Returns the index at which a ticket settled, and its leaf's timestamp.
pub(crate) fn receipt(
    rt: &HostRuntime,
    core: &Core,
    ticket: u64,
) -> Result<Option<(u64, u64)>, Refusal> {
    Ok(match asked(rt, core, Query::Receipt { ticket })? {
        Reply::Receipt {
            leaf_index,
            timestamp,
        } => Some((leaf_index, timestamp)),
        _ => None,
    })
}

// Reports whether these bytes were made, and are the text.
pub(crate) fn is_text(made: Result<Vec<u8>, Refusal>, text: &[u8]) -> bool {
    match made {
        Ok(bytes) => bytes.as_slice() == text,
        Err(_) => false,
    }
}
