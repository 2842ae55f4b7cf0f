//! A list whose copies share what they have in common.
//!
//! A [`SharedList`] only grows. Contracts see it as the plain list of its values, and an [`Iter`] as the list of those that are left.
//!
//! The list consists of parts of fixed size and a rest of at most 128 values. Each part is in an `Arc`. The parts are in two rows, and each
//! row is in an `Arc` too. A copy shares the two rows and each value of the rest ([`Share`]), so it costs the same whatever the length.
//! Neither list sees the values that the other adds later, because a row grows in place only if no other list shares it.
//!
//! A push adds to the rest. A full rest becomes a part: its values are shared into new memory and removed from the rest afterwards. So each
//! step that can run out of memory comes before the list changes.
#![tactic(auto)]

mod chunk;
mod chunked;
mod count;
mod iter;
mod list;
mod parts;
mod share;

pub use iter::Iter;
pub use list::SharedList;
pub use share::Share;
