//! The laws of calls of a step. A call that returns 0 has written a reply of `ct_step`, so the laws of that crate speak of what it wrote. Each law is the contract
//! of a function that does nothing but call other laws.

ghost use Rattle.libwagtenib.specs.StepLaws.{CallsBeginLogs, CallsMakeSteps, CallsAnswerClaims, CallsResumeSteps};

/// A call of `wagtenib_step_begin` that returned 0 wrote the line of a log without leaves.
pub fn begun_by_calls()
    ensures { CallsBeginLogs }
{}

/// A call of `wagtenib_step` that returned 0 wrote the bytes of a step of the batch that it was handed, and this step is one to which the laws of sequencers apply.
pub fn steps_by_calls_are_attempts()
    ensures { CallsMakeSteps }
{
    ct_step::call_laws::replied_steps_are_attempts();
}

/// A call of `wagtenib_step_claim` that returned 0 wrote the bytes of the receipt of the one submission that it was handed.
pub fn claims_by_calls()
    ensures { CallsAnswerClaims }
{}

/// A call of `wagtenib_step_resume` that returned 0 wrote the head and the objects of the step that made the state.
pub fn resumed_by_calls()
    ensures { CallsResumeSteps }
{}
