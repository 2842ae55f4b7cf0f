//! A table whose copies share what they have in common.
//!
//! A [`Table`] maps an address to its places. A place is a number, such as the index of an element in a list. A table with more places
//! shares what it can with the old one, which stays as it was: [`with`] and [`with_all`] add places. [`copy`] hardly takes longer for a
//! larger table. [`first_place`] returns the first place of an address that passes a [`Test`], in the order in which the places were added.
//!
//! New places wait in a list. When the list is full, its places move to 64 rows, by the lowest bits of their addresses, and wait there
//! again. When that list of a row is full, they move to the row's 64 buckets by the next bits. So a place is copied only a few times,
//! together with others, and most of the table stays unchanged.
#![tactic(auto)]

mod lists;
mod search;
mod slots;
mod table;

pub use search::{Test, first_place};
pub use slots::Slot;
pub use table::{Row, Table, copy, with, with_all};
