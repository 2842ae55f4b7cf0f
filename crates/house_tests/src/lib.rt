//! Tests of `ct_gate` and `ct_house`, of how texts are written, and of the results of the log's calls if memory is refused. They have a
//! crate of their own, so that each of those crates is proved once.
//!
//! - `rows` reads rows of text, each a call and its expected result. Most tests are such rows, so that their proofs are short.
//! - `gate` opens a gate of two fronts, and sends, receives and shuts.
//! - `two_fronts` makes the calls of small logs in one thread, step by step, and compares each result.
//! - `readers` checks which states fronts see: at the opening, after a bulletin, in a long log, and during publications in another thread.
//! - `succession` resumes a front: with a full ring, before the clock, and after the shutdown.
//! - `shutdown_under_load` runs sixteen ends of a gate in threads of their own, and `sixteen_fronts` runs sixteen fronts and a sequencer
//!   that takes and publishes at the same time. Both are shut before the first submission, in the middle, and after the last one.
//! - `refused_growths` has one allocation refused in each run.
//! - `long_texts` writes texts of many lengths with `json_lines::send`.
#![tactic(auto)]

#[cfg(test)]
mod common;
#[cfg(test)]
mod gate;
#[cfg(test)]
mod long_texts;
#[cfg(test)]
mod readers;
#[cfg(test)]
mod refused_growths;
#[cfg(test)]
mod rows;
#[cfg(test)]
mod shutdown_under_load;
#[cfg(test)]
mod sixteen_fronts;
#[cfg(test)]
mod succession;
#[cfg(test)]
mod two_fronts;
