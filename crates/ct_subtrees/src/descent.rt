//! The parts of a tree that have the end of a subtree, from the root of the tree down.
ghost use Rattle.std.specs.Prelude.{◌≡◌, ◌<◌, ◌≤◌, ◌↔◌, ℕ, IsTrue, true, false};
ghost use Rattle.ct_subtrees.specs.Subtrees.{is_whole};
ghost use Rattle.ct_subtrees.specs.Walk.{is_split, part_below, part_at};

use ct_tree::largest_power_below;

// The range of a subtree in a tree of `size` leaves.
#[derive(Clone, Copy)]
pub(crate) struct Place {
    pub(crate) start: usize,
    pub(crate) end: usize,
    pub(crate) size: usize,
}

impl Place {
    // Reports whether the range is all leaves of the tree.
    pub(crate) fn is_all(self) -> bool
        ensures { IsTrue result ↔ (is_whole self.start self.end self.size ≡ true) }
    {
        self.start == 0 && self.end >= self.size
    }
}

// A part of a tree, and the subtree's range in it. If `known` is true, the hash of that range is known.
#[derive(Clone, Copy)]
pub(crate) struct Part {
    pub(crate) place: Place,
    pub(crate) known: bool,
}

impl Part {
    // Returns the half of this part that has the end of the subtree. A part that is all in the subtree has no halves.
    fn below(self) -> Part
        requires some { self.place.start < self.place.end }
        requires inside { self.place.end ≤ self.place.size }
        ensures some { result.place.start < result.place.end }
        ensures inside { result.place.end ≤ result.place.size }
        ensures smaller { is_split self ≡ true → result.place.size < self.place.size }
        ensures part { result ≡ part_below self }
    {
        if self.place.is_all() {
            return self;
        }
        let middle = largest_power_below(self.place.size);
        if self.place.end <= middle {
            return Part {
                place: Place {
                    start: self.place.start,
                    end: self.place.end,
                    size: middle,
                },
                known: self.known,
            };
        }
        if self.place.start >= middle {
            return Part {
                place: Place {
                    start: self.place.start - middle,
                    end: self.place.end - middle,
                    size: self.place.size - middle,
                },
                known: self.known,
            };
        }
        Part {
            place: Place {
                start: 0,
                end: self.place.end - middle,
                size: self.place.size - middle,
            },
            known: false,
        }
    }

    // Returns the part that is `depth` levels below this one.
    pub(crate) fn at(self, depth: usize) -> Part
        requires some { self.place.start < self.place.end }
        requires inside { self.place.end ≤ self.place.size }
        requires few { depth ≤ 64 }
        ensures some { result.place.start < result.place.end }
        ensures inside { result.place.end ≤ result.place.size }
        ensures part { result ≡ part_at depth self }
    {
        let mut part = self;
        for _ in 0..depth {
            part = part.below();
        }
        part
    }

    // Returns the number of levels from this part down to the one that is all in the subtree.
    pub(crate) fn depth(self) -> usize
        requires some { self.place.start < self.place.end }
        requires inside { self.place.end ≤ self.place.size }
        ensures whole { is_split (part_at result self) ≡ false }
        ensures split { (d : ℕ) → d < result → is_split (part_at d self) ≡ true }
        ensures few { result ≤ 64 }
    {
        let mut part = self;
        let mut depth = 0;
        while !part.place.is_all() {
            part = part.below();
            depth += 1;
        }
        depth
    }
}
