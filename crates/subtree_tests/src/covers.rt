// Covers of ranges. The expected ones are those of the draft's algorithm in another language.

use ct_subtrees::{cover_range, part_laws};

// Ranges of more than one leaf: the start, the end, the start of the left subtree, and the index at which the right one begins.
const PAIRS: [(u64, u64, u64, u64); 10] = [
    (0, 2, 0, 1),
    (0, 4, 0, 2),
    (5, 13, 4, 8),
    (4, 8, 4, 6),
    (7, 9, 7, 8),
    (8, 13, 8, 12),
    (123, 1000, 0, 512),
    (1, 1024, 0, 512),
    (1023, 1025, 1023, 1024),
    (3, 1 << 40, 0, 1 << 39),
];

// Reports whether the cover of a range consists of these two subtrees.
fn is_pair(start: u64, end: u64, first: u64, middle: u64) -> bool {
    if start >= end {
        return false;
    }
    let cover = cover_range(start, end);
    let Some(left) = cover.left else {
        return false;
    };
    left.start == first
        && left.end == middle
        && cover.right.start == middle
        && cover.right.end == end
}

// Reports whether the cover of a range is the range.
fn is_alone(start: u64, end: u64) -> bool {
    if start >= end {
        return false;
    }
    let cover = cover_range(start, end);
    cover.left.is_none() && cover.right.start == start && cover.right.end == end
}

#[test]
fn ranges_have_the_covers_of_the_draft(rt: HostRuntime) {
    for (start, end, first, middle) in &PAIRS {
        assert!(rt; is_pair(*start, *end, *first, *middle));
    }
    part_laws::covers();
    part_laws::parts();
    assert!(rt; is_alone(0, 1));
    assert!(rt; is_alone(5, 6));
    assert!(rt; is_alone(u64::MAX - 1, u64::MAX));
}

#[test]
fn a_cover_reaches_over_half_of_all_indexes(rt: HostRuntime) {
    let half = 1 << 63;
    assert!(rt; is_pair(half - 1, half + 1, half - 1, half));
    assert!(rt; is_pair(0, u64::MAX, 0, half));
    assert!(rt; is_pair(1, half + 1, 0, half));
}
