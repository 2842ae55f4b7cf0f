//! Lines of JSON (RFC 8259) in and out, bytes as base64 (RFC 4648, section 4): the input and output of a program over lines.
//!
//! - `next_line` reads an input line by line, and holds no more of a line than is asked for.
//! - `line_value` returns the JSON value of a line, and `fields` reads the value under a key of a JSON object. `bytes_value` and
//!   `hashes_value` are bytes and hashes as JSON.
//! - `write_whole` writes bytes and reports whether it could. `send` also flushes the output. `tell` does not report
//!   whether it could. These are for the programs, whose runs end with a `RunFault`.
//!
//! `Lines` defines the next line of an input. `Values` defines the value of a line, by `serde_json`'s own definition of the value of a
//! text, and how bytes are represented in it, by `base64`'s strict encoding. `Fields` defines the value under a key.
#![tactic(auto)]

mod fault;
pub mod fields;
pub mod laws;
mod lines;
mod sending;
mod value;
mod wanting;

pub use fault::{RunFault, Unwritten};
pub use lines::{READS, REQUEST_KEPT, content, cut_piece, next_line};
pub use sending::{send, tell, write_bytes, write_whole};
pub use value::{LONGEST_REQUEST, bytes_value, hashes_value, line_value};
