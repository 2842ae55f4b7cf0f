//! The cover of a range of leaves by subtrees.
ghost use Rattle.std.specs.Prelude.{◌≡◌, ◌+◌, ◌-◌, ◌*◌, ◌^◌, ◌<◌, ◌≤◌, ℕ};
ghost use Rattle.ct_subtrees.specs.Cover.{IsPower, IsCover, IsMiddle, IsLeastPower};

/// The range of a subtree's leaves: those from index `start` to `end - 1`.
#[derive(Clone, Copy, Debug, PartialEq, Eq)]
pub struct Subtree {
    /// The index of the first leaf.
    pub start: u64,
    /// The index after the last leaf.
    pub end: u64,
}

/// The subtrees that cover a range of leaves.
#[derive(Clone, Copy, Debug, PartialEq, Eq)]
pub struct Cover {
    /// The subtree before `right`, if the range has more than one leaf. It is full, and may begin before the range.
    pub left: Option<Subtree>,
    /// The subtree that ends with the range.
    pub right: Subtree,
}

// Returns the number from `start + 1` to `last` that is a multiple of the largest power of two, and that power.
fn middle(start: u64, last: u64) -> (u64, u64)
    requires { start < last }
    ensures { IsMiddle start last result.0 result.1 }
{
    let mut before = start;
    let mut node = last;
    let mut width = 1;
    while before / 2 < node / 2 {
        before /= 2;
        node /= 2;
        width *= 2;
    }
    (node * width, width)
}

// Returns the smallest power of two that is not below `count`, by halving a power of two that is not below it.
fn least_power(count: u64, power: u64) -> u64
    requires some { 0 < count }
    requires enough { count ≤ power }
    requires power { IsPower power }
    ensures { IsLeastPower count power result }
{
    let mut width = power;
    while width / 2 >= count {
        width /= 2;
    }
    width
}

/// Returns the subtrees that cover the leaves from index `start` to `end - 1` (as draft-ietf-plants-merkle-tree-certs, section 4.5): one
/// subtree for one leaf, and otherwise two that are adjacent and together have fewer than twice as many leaves as the range.
pub fn cover_range(start: u64, end: u64) -> Cover
    requires { start < end }
    ensures { IsCover start end result.left result.right }
{
    if end - start == 1 {
        return Cover {
            left: None,
            right: Subtree { start, end },
        };
    }
    let (middle, power) = middle(start, end - 1);
    let width = least_power(middle - start, power);
    Cover {
        left: Some(Subtree {
            start: middle - width,
            end: middle,
        }),
        right: Subtree { start: middle, end },
    }
}
