//! The workers of a log in memory, its parties: each front, the operator, and then the closed log serve lines of requests.
//!
//! - `serving` is the one loop of a party, over a list of tasks.
//! - `front_work` and `operator_work` do the tasks of a front and of the operator. With `waiting`, a task waits for another party.
//! - `closing` closes the log.
//!
//! A script is a log over an input that is read to its end before any line is served. `serve` reads the input, and assigns its lines to the
//! fronts (each in a thread of its own), to the operator and to the closed log. It writes a reply for each line that is not empty: first the
//! fronts' replies, in the order of their numbers, then the operator's, and then, after the log is closed, the closed log's own. At a line
//! that ends a shift, all lines before it are done, and all fronts are resumed, before the lines after it are started.
//!
//! - `party` has the fronts with their replies. `threads` does the work of a shift, each front in a thread of its own. `shifting` ends
//!   shifts, and does them one after the other.
//! - `replying` adds a reply that belongs to no task, and `script` has `serve`.
#![tactic(auto)]

mod closing;
mod front_work;
mod operator_work;
mod party;
mod replying;
mod script;
mod serving;
mod shifting;
mod threads;
mod waiting;

pub use closing::close;
pub use script::serve;
pub use serving::{Party, serve_all};
pub use waiting::Waiting;
