//! A front's tasks for its lines.

ghost use Rattle.std.specs.Prelude.{◌≡◌, map, true, IfOk, IfErr};
ghost use Rattle.ct_codec.specs.Submitted.{x509, precert};
ghost use Rattle.ct_core.specs.Replies.{Answer, a_head};
ghost use Rattle.ct_core.specs.declared.query.Query.TheVariants.{GetSth};
ghost use Rattle.ct_gate.specs.Ends.{SameIntake};
ghost use Rattle.ct_lines.specs.ReplyText.{answered};
ghost use Rattle.ct_tree.specs.declared.head.Head.{Head};
ghost use Rattle.ct_workers.specs.FrontWork.{HandsIn, Submits, Looks, Shows, Awaits, FrontDoes, FrontGoesOn};
ghost use Rattle.ct_workers.specs.Serving.{DoesWithLine};

use crate::serving::Party;
use crate::waiting::Waiting;
use ct_codec::{Refusal, Submission};
use ct_core::{Query, Reply};
use ct_house::Front;
use ct_lines::{FrontRequest, reply_text};
use std::alloc::{AllocError, Global};
use std::sync::Wait;
use std::thread::Threads;

// Hands in a submission that nothing refuses in advance, and rings the front's bell if it is accepted.
fn hand_in(front: &mut Front, submission: Submission, waiting: &Waiting) -> Result<Reply, Refusal>
    ensures hands_in { HandsIn front.old.intake submission (answered result) front.new.intake }
    ensures same { SameIntake front.old.intake front.new.intake }
    ensures sight { front.new.sight ≡ front.old.sight }
    ensures shutdown { front.old.intake.knows_shutdown ≡ true → front.new.intake.knows_shutdown ≡ true }
{
    match front.submit(submission) {
        Ok(ticket) => {
            waiting.accepted(front.number()).ring();
            Ok(Reply::Ticket(ticket))
        }
        Err((refusal, _)) => Err(refusal),
    }
}

// Submits a chain.
fn submit_chain(front: &mut Front, chain: Vec<Vec<u8>>, waiting: &Waiting) -> Result<Reply, Refusal>
    ensures submits { Submits front.old (x509 (map (λ c. c.items) chain.items)) (answered result) front.new }
    ensures same { SameIntake front.old.intake front.new.intake }
    ensures sight { front.new.sight ≡ front.old.sight }
    ensures shutdown { front.old.intake.knows_shutdown ≡ true → front.new.intake.knows_shutdown ≡ true }
{
    let submission = Submission::x509(chain)?;
    hand_in(front, submission, waiting)
}

// Submits a precertificate.
fn submit_precert(
    front: &mut Front,
    issuer_key_hash: [u8; 32],
    tbs: Vec<u8>,
    chain: Vec<Vec<u8>>,
    waiting: &Waiting,
) -> Result<Reply, Refusal>
    ensures submits { Submits front.old (precert issuer_key_hash tbs.items (map (λ c. c.items) chain.items)) (answered result) front.new }
    ensures same { SameIntake front.old.intake front.new.intake }
    ensures sight { front.new.sight ≡ front.old.sight }
    ensures shutdown { front.old.intake.knows_shutdown ≡ true → front.new.intake.knows_shutdown ≡ true }
{
    let submission = Submission::precert(issuer_key_hash, tbs, chain)?;
    hand_in(front, submission, waiting)
}

// Queries the published log.
fn ask(alloc: Global, front: &mut Front, query: &Query) -> Result<Reply, Refusal>
    ensures looks { Looks front.old front.new }
    ensures shows { Shows front.new.sight.seen query.now (answered result) }
{
    front.ask(alloc, query)
}

// Returns the size of the published log. A head is refused only if no state is shown.
fn published_size(alloc: Global, front: &mut Front) -> Result<u64, Refusal>
    ensures looks { Looks front.old front.new }
    ensures size { IfOk result (λ n. (h : Head) × Shows front.new.sight.seen GetSth (a_head h) × (n ≡ h.tree_size)) }
    ensures refused { IfErr result (λ e. e ≡ Refusal.Closed) }
{
    match ask(alloc, front, &Query::GetSth)? {
        Reply::Sth(head) => Ok(head.tree_size),
        _ => unreachable!(),
    }
}

// Waits until the published log has at least this size.
#[tactic(auto, using(crate::proofs::FrontLemmas::looks_none, crate::proofs::FrontLemmas::looks_both))]
fn await_size<R: Wait>(
    rt: &R,
    alloc: Global,
    front: &mut Front,
    size: u64,
    waiting: &Waiting,
) -> Result<Reply, Refusal>
    ensures looks { Looks front.old front.new }
    ensures awaits { Awaits front.new.sight.seen size (answered result) }
{
    let turns = waiting.turns;
    let mut turn = 0;
    while turn < turns && !waiting.is_over() {
        let seen = waiting.heads.rung();
        if size <= published_size(alloc, front)? {
            return Ok(Reply::Reached(size));
        }
        turn = waiting.heads.wait_turn(rt, turn, seen, 1);
    }
    Err(Refusal::Late)
}

/// Serves the request of a line. A line that waits gives up after `waiting.turns` turns.
#[tactic(auto, using(crate::proofs::FrontLemmas::looks_on, crate::proofs::FrontLemmas::submits_on))]
pub fn do_front_task<R: Wait>(
    rt: &R,
    alloc: Global,
    front: &mut Front,
    task: FrontRequest,
    waiting: &Waiting,
) -> Result<Reply, Refusal>
    ensures does { FrontDoes front.old task (answered result) front.new }
    ensures goes_on { FrontGoesOn front.old front.new }
{
    match task {
        FrontRequest::AddChain { chain } => submit_chain(front, chain, waiting),
        FrontRequest::AddPreChain {
            issuer_key_hash,
            tbs,
            chain,
        } => submit_precert(front, issuer_key_hash, tbs, chain, waiting),
        FrontRequest::AwaitSize { tree_size } => await_size(rt, alloc, front, tree_size, waiting),
        FrontRequest::Ask(query) => ask(alloc, front, &query),
    }
}

// A front's replies are whole lines.
impl Party<FrontRequest> for Front {
    ghost does = { DoesWithLine FrontDoes FrontGoesOn };

    fn reply<R: Threads + Wait + Sync>(
        &mut self,
        rt: &R,
        alloc: Global,
        waiting: &Waiting,
        task: FrontRequest,
    ) -> Result<Vec<u8>, AllocError> {
        let reply = do_front_task(rt, alloc, self, task, waiting);
        reply_text(alloc, &reply)
    }
}
