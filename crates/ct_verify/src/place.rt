//! The walk from a leaf to the root, by the indices of nodes in their levels.
ghost use Rattle.std.specs.Prelude.{◌≡◌, ◌/◌, ◌%◌, ◌<◌, ◌≤◌, ◌⊎◌, ◌↔◌, IsTrue};
ghost use Rattle.ct_verify.specs.Place.{Halved, Lifted};

/// A node of a tree: its index in its level, and the index of the level's last node.
#[derive(Clone, Copy)]
pub(crate) struct Place {
    pub(crate) node: u64,
    pub(crate) last: u64,
}

impl Place {
    // Reports whether the next element joins at the left.
    pub(crate) fn is_right(self) -> bool
        ensures { IsTrue result ↔ ((self.node % 2 ≡ 1) ⊎ (self.node ≡ self.last)) }
    {
        self.node % 2 == 1 || self.node == self.last
    }

    // One level up.
    pub(crate) fn up(self) -> Place
        ensures node { result.node ≡ self.node / 2 }
        ensures last { result.last ≡ self.last / 2 }
    {
        Place {
            node: self.node / 2,
            last: self.last / 2,
        }
    }

    // Moves up past the levels in which this node is the last one and has no sibling.
    pub(crate) fn skip_lone(self) -> Place
        requires right { (self.node % 2 ≡ 1) ⊎ (self.node ≡ self.last) }
        requires inside { 0 < self.last }
        ensures lifted { Lifted self.node self.last result.node result.last }
        ensures odd { result.node % 2 ≡ 1 }
    {
        let mut place = self;
        while place.node % 2 == 0 && place.node > 0 {
            place = place.up();
        }
        place
    }

    // Moves up past the levels in which this node is a right child.
    pub(crate) fn skip_right(self) -> Place
        ensures halved { Halved self.node self.last result.node result.last }
        ensures even { result.node % 2 ≡ 0 }
    {
        let mut place = self;
        while place.node % 2 == 1 {
            place = place.up();
        }
        place
    }
}
