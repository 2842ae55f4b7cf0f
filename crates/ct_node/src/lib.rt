//! Decides what a node of a log does next: which of eleven commands, given the outcome of the one before.
//!
//! Any number of nodes carry on one log on tiles over one lock (here called the register) and one object store. A [`Node`] is its current
//! command, and [`Node::next`] returns the command after it. These decisions read and write nothing and see no bytes. A [`State`] represents
//! what the lock holds. An object is represented by its index in a state's staged batch (here called a bundle).
//!
//! A command may take effect late, more than once, or never. Its node may or may not learn of it, may be killed, or may continue from an
//! earlier command. In all these cases the following holds ([`laws::worlds`]):
//! - A tree head exists only if all objects of its state and of every earlier state exist.
//! - Under public names, only objects of states that the lock took ever exist.
//! - Each request that is answered has a head that covers it.
//! - The newest state's staged batch is never deleted, and a node that starts can publish that state.
//!
//! The premises are the definition `MayHappen`:
//! - A command takes effect only if it was given.
//! - The lock takes a state only in place of the one that it holds.
//! - A deletion removes only the staged batch that it names.
//! - A node is never given an outcome that is false.
//!
//! If no store fails, some node comes to its answer within 9 outcomes for each node that starts ([`laws::progress`]).
//!
//! [`start`] decides whether a node that starts continues from the lock's state, and [`show`] decides which head it shows
//! ([`laws::starts`]). [`laws::take_ups`] relates these answers to what exists. [`laws::sweeps`] says which objects that nobody reads any
//! more may be deleted.
//!
//! # The text of the lock
//!
//! The text that a log's lock holds and the names of staged batches identify states. [`said_in`] reads a lock's text, and [`text_of`] writes
//! one. [`state_of_name`] reads the name of a staged batch, and [`write_name`] writes one. [`lock_laws`] proves that what is written of a
//! state is read as this state.
//!
//! # The log that nodes write
//!
//! Whatever happens to the commands of any number of nodes, everything in the stores belongs to one list of entries ([`log_laws::nodes`]).
//!
//! The law of a node's order ([`laws::worlds`]) is joined with those of steps, staged batches, tiles and names (`ct_step`, `ct_tiles`,
//! `ct_data_tiles`), only by their public contracts. It is also joined with the law of the guards that protect the log's key (`ct_guard`;
//! [`log_laws::heads`]). All of this holds for every hash function on byte lists, except that [`log_laws::heads`] needs digests of 32 bytes,
//! and [`log_laws::public_names`] needs digests that are bytes.
#![tactic(auto)]

pub mod laws;
pub mod lock_laws;
mod lock_reading;
mod lock_writing;
pub mod log_laws;
mod node;
mod starting;
mod state;

pub use lock_reading::{Said, has_root, said_in, state_of_name};
pub use lock_writing::{text_of, write_name};
pub use node::{Node, Outcome};
pub use starting::{Beginning, Found, Other, Point, show, start};
pub use state::State;
