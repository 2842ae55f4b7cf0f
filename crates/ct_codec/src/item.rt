//! Accepted submissions.

use crate::submission::Submission;

/// An accepted submission.
#[derive(Debug, Drop)]
pub struct Item {
    /// The number of the front through which it was submitted.
    pub front: u16,
    /// The ticket that it was given.
    pub ticket: u64,
    /// The submission.
    pub submission: Submission,
}
