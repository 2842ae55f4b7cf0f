//! Consequences of the definition, each a clause of a function that does nothing.

ghost use Rattle.ct_checkpoint.specs.Message.{MessagesDiffer, MessageIsNoCheckpoint, CheckpointsDiffer};

/// A message determines its timestamp and its text. A checkpoint's text determines its origin, size and root. No message is the text of a
/// checkpoint without extension lines.
#[tactic(auto, using(crate::proofs::Messages::messages_differ, crate::proofs::Messages::message_is_no_checkpoint, crate::proofs::Messages::checkpoints_differ))]
pub fn messages()
    ensures differ { MessagesDiffer }
    ensures checkpoints { CheckpointsDiffer }
    ensures apart { MessageIsNoCheckpoint }
{}
