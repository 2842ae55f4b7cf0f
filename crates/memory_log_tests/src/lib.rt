//! Tests of the log in memory, except its house: of `ct_codec`, `ct_core`, `ct_lines` and `ct_workers`, over the tests' own
//! readers and writers. They have a crate of their own, so that each of those crates is proved once.
//!
//! - `rows` reads rows of text, each a call and its expected result. `submissions`, `precertificates` and `hostile_bytes` test bytes,
//!   `core_log`, `core_answers` and `settled_log` test the log's state, and `request_lines`, `serving`, `bounded_lines` and `failing_calls`
//!   test lines.
//! - `script` tests the scripts of `ct_workers`: each call of a reader and of a writer fails in turn. It also tests when output is flushed, and lines that
//!   look only a few times.
#![tactic(auto)]

#[cfg(test)]
mod bounded_lines;
#[cfg(test)]
mod core_answers;
#[cfg(test)]
mod core_log;
#[cfg(test)]
mod failing_calls;
#[cfg(test)]
mod hostile_bytes;
#[cfg(test)]
mod precertificates;
#[cfg(test)]
mod request_lines;
#[cfg(test)]
mod rows;
#[cfg(test)]
mod script;
#[cfg(test)]
mod serving;
#[cfg(test)]
mod settled_log;
#[cfg(test)]
mod submissions;
