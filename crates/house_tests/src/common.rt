ghost use Rattle.std.specs.Prelude.{All};
ghost use Rattle.ct_house.specs.House.{IsOfHouse};

use ct_codec::{Refusal, Submission};
use ct_core::Reply;
use ct_house::{FinalLog, Retired, Sequencer};
use ct_tree::Head;
use std::alloc::Global;
use std::process::Abort;
use std::sync::Wait;

// Returns the submission of a chain with one certificate.
pub(crate) fn submission(alloc: Global, certificate: &[u8]) -> Result<Submission, Refusal> {
    let mut chain = Vec::new(alloc);
    chain.push(Vec::from_slice(alloc, certificate)?)?;
    Submission::x509(chain)
}

// Returns the final log of a house whose fronts have retired.
pub(crate) fn closed<R: Wait + Abort>(
    rt: &R,
    mut house: Sequencer,
    mut ends: Vec<Retired>,
) -> FinalLog
    requires { All (IsOfHouse house.house) ends.items }
{
    if !house.is_settled(&mut ends) {
        panic!(rt; "not settled");
    }
    if !house.is_shut() {
        panic!(rt; "not shut");
    }
    if !house.is_covered() {
        panic!(rt; "not covered");
    }
    house.finish(rt, ends)
}

// Returns the head in the reply.
pub(crate) fn head_of(reply: Result<Reply, Refusal>) -> Result<Head, Refusal> {
    match reply? {
        Reply::Sth(head) => Ok(head),
        _ => Err(Refusal::BadLine),
    }
}
