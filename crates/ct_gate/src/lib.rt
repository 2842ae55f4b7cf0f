//! The gate between many threads that hand in submissions and the one thread that sequences them.
//!
//! It decides two things without a lock, and in one place: which ticket a submission gets, and whether it came before the shutdown. One
//! atomic number, the gate word, decides both.
//!
//! # The ends
//!
//! `open_gate` makes a gate with 1 to 16 fronts. Each front has an `Intake`, whose `send` accepts submissions, and an `Outlet`, which takes
//! them out in the same order, from a ring that only these two use. One `Shutter` ends the accepting for all fronts. Each of these may move
//! to a thread of its own. `close_gate` takes the shutter and the intakes back.
//!
//! # The word
//!
//! Bit 63 says that the gate is shut, and the other bits count draws. Four kinds of steps are made on the word, each one atomic
//! instruction:
//!
//! - A draw, by `send`: one is added, and bit 63 is found clear. The number found is the ticket, and the submission is accepted.
//! - A refused draw, by `send`: one is added, and bit 63 is found set. Nothing is accepted, and the front knows of the shutdown from then
//!   on. So a front makes at most one refused draw.
//! - The shutdown, by `Shutter::shut`, once: bit 63 is set. The number found is n.
//! - A glance, by `send` before its other steps: the word is read. If bit 63 is set, the front knows of the shutdown.
//!
//! A `send` checks that its ring has a free slot before it draws, so nothing can fail between the draw and the push.
//!
//! # The rule
//!
//! Between any two steps this holds (`specs/Word.antt`):
//!
//! - The tickets of each front rise, and there are at most 2^32 of them. A seat that made a refused draw knows of the shutdown.
//! - While bit 63 is clear, let c be the number in the word. All tickets are 0 to c - 1, each once. No seat knows of a shutdown.
//! - After bit 63 is set, all tickets are 0 to n - 1, each once. The shutter has n, and the other bits are n plus the number of refused
//!   draws.
//!
//! # Why n is right
//!
//! A submission is accepted if its draw comes before the one step that sets bit 63. From that step on, the tickets always are 0 to n - 1,
//! each once, because a later draw finds bit 63 set and adds no ticket. So n is the number of all accepted submissions, however the
//! threads' steps interleave. `close_gate` joins what all intakes know. Its contract says this of their accepted lists: in each list the
//! tickets rise, and over all lists they are 0 to n - 1, each once. After `Outlet::drain_step` returned `None`, the items received are the
//! accepted list of that front.
//!
//! # The files
//!
//! - `word` contains the word's rule and steps, `view` what a seat at the word knows.
//! - `intake`, `outlet` and `shutter` are the three ends.
//! - `open` makes a gate, and `close` ends it.
//! - `specs/Ends.antt`, `Sending`, `Opening` and `Ring` define the terms of the public contracts, together with `Tickets` of `ct_codec`.
//!   `specs/Seats.antt`, `Word`, `Steps` and `Closing` define those of the rule.
#![tactic(auto)]

mod close;
mod intake;
mod open;
mod outlet;
mod shutter;
mod view;
mod word;

pub use close::close_gate;
pub use intake::Intake;
pub use open::open_gate;
pub use outlet::Outlet;
pub use shutter::Shutter;
