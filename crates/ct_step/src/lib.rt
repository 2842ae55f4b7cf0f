//! One step of a tiled log: from a state line, the right edge, a batch and a timestamp to receipts, new objects and the next state line.
//!
//! [`take_step`] makes the step over bytes. It returns the new objects as one staged batch (called a bundle here), and also the bytes that
//! are signed for the new head. Its result depends on nothing except its arguments. Whoever passes the right edge need not be trusted: the
//! bytes of the partial tiles are believed if they lead to the line's root, and those of the partial data tile if they have the digest in
//! the line. Data tiles contain bytes that no tree hash covers (precertificates, the fingerprints of chains). So the contracts of a step are
//! about bytes, and its line has the digests of its staged batch, of the new partial data tile and of the line before.
//!
//! A [`Batch`] has submissions, each with the fingerprints of its chain. [`laws::sequencers_over_lines`] is the theorem about any number of
//! sequencers over one lock that holds the line.
//!
//! # The step over values
//!
//! The step over bytes is built on a step over values, from a state and a batch to receipts, tiles, a head to be signed and the next state.
//! Repeated submissions are answered, too.
//!
//! - [`State`] is everything that a sequencer keeps of a log: the right edge of its tiles, and the timestamp of its last head.
//! - [`State::believed`] is the state of a head whose partial tiles were kept elsewhere. They are believed if their widths are those of its
//!   size and they lead to its root. So they are the right edge of its tree, or two different strings with one digest are given
//!   ([`growth_laws::edges`]).
//! - [`grow`] adds a batch to the log at a timestamp. It returns a [`Receipt`] for each submission, in order, the tiles that are new or
//!   change, the new head, and the next state. Nothing is stored, and the given state does not change.
//! - [`growth_laws::sequencers`] is the theorem about a log that many sequencers carry on over one lock, which takes a state only in place of
//!   the one that it holds: everything that was written and promised by the steps that it took belongs to one list of leaves.
//!   [`growth_laws::sequencers_over_heads`] is the same for a lock that holds only heads, with edges that were believed.
//! - A submission that the log already has is answered with the index that it has, and gets no second entry. A [`Claim`] is the index that
//!   a store claims for its identity. [`answer_repeat`] believes it if an audit path, which may be computed from tiles, leads from the
//!   claimed leaf to the head's root. So a dishonest store cannot make the log sign a lie: the bytes that are signed are the log's leaf at
//!   that index, or two of the strings that are hashed collide.
//! - It cannot be checked that a store has no index for an identity. [`growth_laws::one_entry_an_identity`] assumes that each such miss was
//!   true when the submissions were looked up, and that the store has everything that a taken step added before the next step looks its
//!   submissions up. Then the list of leaves that all steps carry on has at most one leaf for each identity.
//!
//! Before the lock takes the state of a step, the sequencer must return no receipt of it, and put no tile under its public name. Nothing is
//! promised for a step that was not taken.
//!
//! A leaf is that of RFC 6962, section 3.4, whose only extension has its index in the log (C2SP static-ct-api), so a log has at most 2^40
//! leaves. An identity is an entry type and a signed entry, without timestamp and chain. Sizes count leaves, and timestamps are in
//! milliseconds.
//!
//! # The state between two steps
//!
//! The lock holds the state of a log as a line of text. The objects of the step that made it are one byte string.
//!
//! - A [`StateLine`] decides which step is next: the lock takes a step's line only in place of the line from which it was made. A line has
//!   a head without its signature. It also has three digests: of all the objects of the step that made it, of the partial data tile at the
//!   log's end, of which the tree hashes do not cover everything, and of the line before it.
//! - [`StateLine::write`] writes a line, and [`StateLine::read`] reads it, both by the definition `state_line_text`
//!   (`specs/StateLines.antt`). Each text that is read is the text of the line that is returned, each text that is written can be read, and
//!   no two lines have the same text ([`state_laws::state_lines`]). A text is the word growth, a space, and 288 hexadecimal digits in lower
//!   case: 295 bytes without an end of line.
//! - An [`Object`] is a tile of hashes or of entries, with its name. All the objects of a step are its staged batch. The objects follow one
//!   another, each as its name, a vector with a length of 2 bytes, and its content, a vector with a length of 4 bytes (RFC 5246 section
//!   4.3). `bundle_text` in `specs/Bundle.antt` defines this, and [`push_object`] writes it.
//! - [`resume`] returns the objects of a staged batch whose digest a state line has. So anybody can publish a step whose maker died.
//!   [`state_laws::bundles`] says that these are the objects from which the staged batch was made.
//! - [`needed`] returns the names of the tiles that a step from a line needs: the right edge of the log.
//!
//! Nothing is stored here, and names are returned as ASCII (C2SP tlog-tiles and static-ct-api).
//!
//! # The calls
//!
//! The functions of [`calls`] are steps for a caller in another language. Nothing is kept between them, and each one returns an [`Answer`],
//! or refuses with a [`StepRefusal`]: `begin` returns the first state of a log, `needs` the names of the objects that a step from a state
//! needs, `step` the step itself, `resume` the objects of a step that was decided, and `claim` the bytes that are signed for a claimed index.
//! [`call_laws`] proves that the theorem about sequencers applies to these steps.
//!
//! # The files
//!
//! - `step`, `batch` and `objects`: the step over bytes. `growth`, `believed`, `claim` and `receipts`: the step over values.
//! - `line`, `bundle`, `rolling_out` and `edge_names`: the state between two steps.
//! - `reading` reads a call's batch and edge. `entry` is an entry of such a batch, and `repeats` removes the repeats from it.
//! - `edge` arranges the contents at a log's right edge as a step takes them.
//! - `stepping` replies to a request, `places` finds the offsets of a step's objects in its staged batch, `replies` writes a reply, and
//!   `answer` is one. `fault` has the meaning of the errors of a step for a call.
#![tactic(auto)]

mod answer;
mod batch;
mod believed;
mod bundle;
pub mod call_laws;
pub mod calls;
mod claim;
mod edge;
mod edge_names;
mod entry;
mod fault;
mod growth;
pub mod growth_laws;
pub mod laws;
mod line;
mod objects;
mod places;
mod reading;
mod receipts;
mod repeats;
mod replies;
mod rolling_out;
pub mod state_laws;
mod step;
mod stepping;

pub use answer::{Answer, StepRefusal};
pub use batch::Batch;
pub use believed::EdgeFault;
pub use bundle::{Object, push_object};
pub use claim::{Claim, ClaimFault, answer_repeat};
pub use edge_names::needed;
pub use growth::{Growth, GrowthFault, State, grow};
pub use line::StateLine;
pub use receipts::Receipt;
pub use rolling_out::{ResumeFault, resume};
pub use step::{Step, StepFault, take_step};
