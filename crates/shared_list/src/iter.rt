//! Iteration over a list.

ghost use Rattle.std.specs.Prelude.{◌≡◌, drop};
ghost use Rattle.std.specs.Iterator.{YieldsFirstRef, item_count};

use crate::list::SharedList;
use std::marker::Model;

/// The values of a list from an index on. Contracts see the list of those that are left.
#[derive(Drop)]
pub struct Iter<'a, T> {
    list: &'a SharedList<T>,
    place: usize,
}

impl<'a, T> Model for Iter<'a, T> {
    ghost use Rattle.std.specs.Prelude.{List, drop, ◌≤◌, length};

    ghost Value = { List T };

    ghost view = { λ s. drop s.place s.list.now };

    ghost invariant = { λ s. s.place ≤ length s.list.now };
}

impl<'a, T> Iter<'a, T> {
    // The values of the list from this index on. There are none if the index is past its end.
    pub(crate) fn from(list: &'a SharedList<T>, place: usize) -> Iter<'a, T>
        ensures { result ≡ drop place list.now }
    {
        let place = place.min(list.len());
        Iter { list, place }
    }
}

impl<'a, T> Iterator for Iter<'a, T> {
    type Item = &'a T;

    ghost next_gives = { YieldsFirstRef (λ it. it) };

    ghost remaining = { item_count (λ it. it) };

    fn next(&mut self) -> Option<&'a T> {
        let list = self.list;
        let place = self.place;
        if list.len() <= place {
            return None;
        }
        self.place = place + 1;
        Some(list.at(place))
    }
}
