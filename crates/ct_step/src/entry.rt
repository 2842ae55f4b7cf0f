//! An entry of a batch.

ghost use Rattle.std.specs.Prelude.{◌<◌, ◌^◌, length};

use ct_codec::Submission;

// A submission, and the fingerprints of its chain, at most 2,047.
#[derive(Drop)]
pub struct Entry {
    pub(crate) submission: Submission,
    pub(crate) chain: Vec<[u8; 32]>,
    ghost short: { length chain.items < 2 ^ 11 },
}
