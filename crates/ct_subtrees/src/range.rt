//! The ranges of leaves that are subtrees.
ghost use Rattle.std.specs.Prelude.{◌≡◌, ◌<◌, ◌↔◌, IsTrue};
ghost use Rattle.ct_subtrees.specs.Subtrees.{IsSubtree};

/// Reports whether the leaves from `start` to `end - 1` are those of a subtree: there are some, and `start` is a multiple of the smallest
/// power of two that is not below their number.
pub fn is_subtree(start: u64, end: u64) -> bool
    ensures { IsTrue result ↔ IsSubtree start end }
{
    if start >= end {
        return false;
    }
    let mut block = start;
    let mut count = end - start;
    while count > 1 {
        if block % 2 == 1 {
            return false;
        }
        block /= 2;
        count = count / 2 + count % 2;
    }
    true
}
