//! Replies of the frozen log.

ghost use Rattle.std.specs.Prelude.{◌≡◌, ℕ, List, IfOk};
ghost use Rattle.ct_lines.specs.Asked.{IsRequest, by_frozen};
ghost use Rattle.ct_lines.specs.Requests.{frozen_asked};
ghost use Rattle.ct_lines.specs.ReplyText.{reply_line};
ghost use Rattle.ct_lines.specs.Frozen.{Answers, AnswersBuilt, frozen_answer, line_answer, frozen_reply};

use crate::auditing::audit_reply;
use crate::reading::read_line;
use crate::request::{FrozenRequest, Request};
use crate::wanting::Told;
use crate::writing::reply_text;
use ct_codec::Refusal;
use ct_core::{Published, Reply};
use ct_tree::Memory;
use std::alloc::Global;

// Returns the answer to a reader of the frozen log.
#[tactic(auto, using(crate::proofs::Built::query_answers))]
fn request_reply(alloc: Global, log: &Published, request: &FrozenRequest) -> Result<Reply, Refusal>
    ensures { AnswersBuilt result (frozen_answer log.now (frozen_asked request.now)) }
{
    match request {
        FrozenRequest::Ask(query) => log.answer(alloc, query),
        FrozenRequest::Audit(audit) => audit_reply(alloc, log, audit),
    }
}

// Returns the answer to a line: bad-line if the line is no request, or a request of a front or of the operator.
fn line_reply(alloc: Global, log: &Published, line: &[u8]) -> Result<Reply, Refusal>
    ensures { Answers result (line_answer log.now line.now) }
{
    match read_line(alloc, line) {
        Ok(Request::Front(_, _)) => Err(Refusal::BadLine),
        Ok(Request::Operator(_)) => Err(Refusal::BadLine),
        Ok(Request::Frozen(request)) => request_reply(alloc, log, &request),
        Err(refusal) => Err(refusal),
    }
}

/// Returns the closed log's reply to a line, with the reply's end byte. The line is passed without its own end byte.
///
/// # Errors
///
/// `Memory`, if memory is refused.
pub fn frozen_reply(alloc: Global, log: &Published, line: &[u8]) -> Result<Vec<u8>, Memory>
    ensures { IfOk result (λ b. b.items ≡ frozen_reply log.now line.now) }
{
    let answer = Told::from(line_reply(alloc, log, line)).answer?;
    reply_text(alloc, &answer)
}

/// Returns the closed log's reply to a request that was read already, with the reply's end byte. It is what `frozen_reply` returns for each
/// line that is this request.
///
/// # Errors
///
/// `Memory`, if memory is refused.
pub fn frozen_request_reply(
    alloc: Global,
    log: &Published,
    request: &FrozenRequest,
) -> Result<Vec<u8>, Memory>
    ensures reply { IfOk result (λ b. b.items ≡ reply_line (frozen_answer log.now (frozen_asked request.now))) }
    ensures of_line { IfOk result (λ b. (line : List ℕ) → IsRequest line (by_frozen (frozen_asked request.now))
        → b.items ≡ frozen_reply log.now line) }
{
    let answer = Told::from(request_reply(alloc, log, request)).answer?;
    reply_text(alloc, &answer)
}
