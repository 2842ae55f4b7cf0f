//! Request lines and reply lines: one JSON object for each line (RFC 8259), bytes as base64 (RFC 4648, section 4).
//!
//! - `read_line` returns the `Request` in a line, or `BadLine` if and only if the line is no request. It may also be refused memory.
//! - `reply_text` returns the text of a `Reply` or of a refusal, with the end of the line.
//! - `frozen_reply` returns a closed log's reply to a line. `serve_frozen` reads request lines from a reader, and writes the replies of a
//!   closed log to a writer.
//!
//! For a whole input there are the tasks of a log's parties, and the faults that end a run:
//!
//! - `task` defines the task of a front, the operator or the frozen log for a line.
//! - `plan` assigns the lines of a whole input to the parties, shift by shift, and `plan_reading` reads them line by line.
//! - `options` has the numbers of a log, and `run_fault` names the faults that end a run before all output is written.
//!
//! `specs/` defines the meaning of a line and the text of a reply. It uses the definitions of `serde_json` for the value of a text and the
//! text of a value, and those of `json_lines`. `Asked` defines the request in a line, `ReplyText` the text of an answer, `Verdicts` the
//! answer to an audit, `Frozen` a closed log's output for its input, and `Serving` the output if serving ends early. The laws of these
//! definitions are in `laws`.
#![tactic(auto)]

mod auditing;
mod fault;
mod frozen;
pub mod laws;
mod options;
mod plan;
mod plan_reading;
mod reading;
mod request;
mod run_fault;
mod serving;
mod task;
mod wanting;
mod writing;

pub use fault::ServeFault;
pub use frozen::{frozen_reply, frozen_request_reply};
pub use options::Options;
pub use plan::{Plan, Shift, Work};
pub use plan_reading::read_plan;
pub use reading::read_line;
pub use request::{Audit, FrontRequest, FrozenRequest, OperatorRequest, Request};
pub use run_fault::Fault;
pub use serving::serve_frozen;
pub use task::{OperatorTask, Task};
pub use writing::reply_text;
