//! Observers of a Certificate Transparency log, from outside: by its tree heads, by the answers of its front end, and by its proofs.
//!
//! - A [`Monitor`] keeps all leaves of a log. `observe` takes a tree head and the leaves that are new in it. It takes the head only if its
//!   root is the tree hash of all leaves. Each [`MonitorFault`] names a reason to refuse a head: a log that shrank, two roots for the same
//!   size, a timestamp that did not increase, a number or a root that is not that of the leaves.
//! - A [`Follower`] does the same and keeps no leaves. The roots of the perfect subtrees ([`Peaks`], at most 64) and the last head are its
//!   whole state, which can be saved and passed in again.
//! - A [`Watcher`] takes the answers of a front end in any order: tree heads, entries and consistency proofs. It keeps the last head that
//!   it accepted, a newer head that waits for its entries, and the perfect subtrees of the leaves that were read: at most 128 hashes. Each
//!   answer gets a [`Verdict`].
//! - An [`Auditor`] checks audit paths and consistency proofs against tree heads. If it is given the leaves, it explains an audit path: the
//!   leaf is present, or it returns two different strings with the same hash.
//!
//! The five calls [`begin`], [`take_head`], [`take_entries`], [`take_proof`] and [`take_older`] are a [`Watcher`] as calls over values. The state is bytes,
//! which belong to the caller: a call receives a state, and returns a verdict and the next state. Nothing is kept between calls.
//!
//! - `writing` writes the bytes of a state, and `reading` reads them. Bytes whose parts do not fit one another (`fitting`) are not a state.
//! - `facts` has the facts about a state that follow from its types.
//! - `entries` finds the first entry that is later than the waiting head, and the first that is not a leaf.
//! - `starting` has the state of a monitor that begins at a trusted head.
//! - `calls` has the calls, and `answer` their results.
//! - [`call_laws`] has the laws of many calls.
//!
//! The calls use SHA-256. All else holds for every hash function with digests of 32 bytes (`NodeHash`). The meaning of the results is
//! defined in `specs/`: `Followed` and `Observed` for the monitor, `FollowerState` for the follower, `Watched` and `Verdicts` for the
//! watcher, `Audited` for the auditor.
#![tactic(auto)]

mod answer;
mod auditor;
pub mod call_laws;
mod calls;
mod entries;
mod extension;
mod facts;
mod fault;
mod fitting;
mod keeping;
pub mod laws;
mod newest;
mod order;
mod peaks;
mod reading;
mod starting;
mod verdict;
mod watcher;
mod writing;

pub use answer::{Answer, EntriesAnswer};
pub use auditor::Auditor;
pub use calls::{begin, compare_heads, take_entries, take_head, take_older, take_proof};
pub use entries::{FaultyEntry, LaterEntry};
pub use fault::MonitorFault;
pub use keeping::{Follower, Monitor};
pub use newest::Newest;
pub use peaks::Peaks;
pub use starting::{StartFault, start};
pub use verdict::Verdict;
pub use watcher::Watcher;
