// A monitor, an auditor, a follower and a watcher of the tree of the leaves 41, 42 and 43.
use crate::evidence::one_byte_leaves;
use crate::rows::{Row, Shown, right_rows};
use crate::weak_hashes::ZeroHash;
use ct_monitor::{Auditor, Follower, Monitor, MonitorFault, Peaks, Verdict, Watcher};
use ct_tree::{Head, NodeHash, Sha256Hash};
use std::alloc::{AllocError, Global};
use std::test::Fail;

// Reports whether the monitor keeps these leaves, and this is its last head.
fn is_at(monitor: &Monitor<Sha256Hash>, leaves: &[Vec<u8>], last: Head) -> bool {
    monitor.last_head() == Some(last) && monitor.leaves() == leaves
}

impl Shown for Monitor<Sha256Hash> {
    // Checks a row of a head and its new leaves, the leaves and the last head that are kept then, and the result.
    fn is_right(&mut self, alloc: Global, mut row: Row<'_>) -> bool {
        let next = row.head();
        let answer = self.observe(next, row.leaves(alloc));
        let kept = row.leaves(alloc);
        let last = row.head();
        is_at(self, &kept, last) && row.ends_in(alloc, &answer)
    }
}

// The number of rows for which a new monitor gives the right result, before the first for which it does not.
fn observed(rt: &HostRuntime, rows: &str) -> u32 {
    let mut monitor = Monitor::new(rt.alloc(), Sha256Hash);
    if monitor.last_head() != None || !monitor.leaves().is_empty() {
        return 0;
    }
    right_rows(rt.alloc(), &mut monitor, rows)
}

// Groups of rows, each for a monitor of its own, with the number of rows.
const OBSERVED: [(u32, &str); 3] = [
    // A monitor follows three heads.
    (
        3,
        "\
1 5 A A A 1 5 A Ok(())
2 6 AB B AB 2 6 AB Ok(())
3 7 ABC C ABC 3 7 ABC Ok(())",
    ),
    // Faults of heads after one leaf.
    (
        6,
        "\
1 5 A A A 1 5 A Ok(())
1 6 SEVENS - A 1 5 A Err(Fork)
0 6 A - A 1 5 A Err(Shrunk)
1 4 A - A 1 5 A Err(TimeNotLater)
3 6 ABC B A 1 5 A Err(CountMismatch)
1 5 A - A 1 5 A Ok(())",
    ),
    // Faults of heads after two leaves.
    (
        5,
        "\
2 5 AB AB AB 2 5 AB Ok(())
1 4 A - AB 2 5 AB Err(Shrunk)
2 4 A - AB 2 5 AB Err(Fork)
3 6 AB C AB 2 5 AB Err(RootMismatch)
3 6 ABC C ABC 3 6 ABC Ok(())",
    ),
];

#[test]
fn a_monitor_answers_heads(rt: HostRuntime) {
    for (count, rows) in &OBSERVED {
        assert!(rt; observed(&rt, rows) == *count);
    }
}

// Checks a row of two heads and the proof.
fn are_heads_checked<H: NodeHash + Drop>(
    alloc: Global,
    auditor: &Auditor<H>,
    mut row: Row<'_>,
) -> bool {
    let first = row.head();
    let second = row.head();
    let proof = row.hashes(alloc);
    row.ends_in(alloc, &auditor.check_heads(&first, &second, &proof))
}

// Checks a row of a head, a leaf, its index and its path.
fn is_path_checked<H: NodeHash + Drop>(
    alloc: Global,
    auditor: &Auditor<H>,
    mut row: Row<'_>,
) -> bool {
    let head = row.head();
    let leaf = row.text();
    let index = row.number();
    let path = row.hashes(alloc);
    row.ends_in(alloc, &auditor.check(&head, leaf, index, &path))
}

// Checks a row of all leaves, a leaf, its index and its path.
fn is_path_explained<H: NodeHash + Drop>(
    alloc: Global,
    auditor: &Auditor<H>,
    mut row: Row<'_>,
) -> bool {
    let leaves = row.leaves(alloc);
    let leaf = row.text();
    let index = row.number();
    let path = row.hashes(alloc);
    row.ends_in(alloc, &auditor.explain(alloc, &leaves, leaf, index, &path))
}

impl<H: NodeHash + Drop> Shown for Auditor<H> {
    fn is_right(&mut self, alloc: Global, mut row: Row<'_>) -> bool {
        match row.word() {
            "heads" => are_heads_checked(alloc, self, row),
            "check" => is_path_checked(alloc, self, row),
            "explain" => is_path_explained(alloc, self, row),
            _ => false,
        }
    }
}

// Groups of rows for an auditor, with the number of rows.
const AUDITED: [(u32, &str); 2] = [
    // An auditor checks three heads.
    (
        5,
        "\
heads 1 5 A 2 6 AB B Ok(())
heads 2 6 AB 3 7 ABC C Ok(())
heads 1 5 A 3 7 ABC B,C Ok(())
heads 2 6 AB 1 5 A B Err(SizesOutOfRange)
heads 1 5 A 2 6 ABC B Err(RootMismatch)",
    ),
    // An auditor checks and explains paths.
    (
        4,
        "\
check 3 7 ABC B 1 A,C Ok(())
explain ABC B 1 A,C Ok(Holds)
check 3 7 ABC C 1 A,C Err(RootMismatch)
explain ABC C 1 A,C Err(ProofRefused(RootMismatch))",
    ),
];

#[test]
fn an_auditor_checks_and_explains(rt: HostRuntime) {
    for (count, rows) in &AUDITED {
        assert!(rt; right_rows(rt.alloc(), &mut Auditor::new(Sha256Hash), rows) == *count);
    }
}

#[test]
fn an_auditor_explains_paths_under_the_hash_of_zeros(rt: HostRuntime) {
    let rows = "\
check 1 5 ZEROS B 0 - Ok(())
explain A B 0 - Ok(Collision([0, 66], [0, 65]))
explain AB A 0 ONES Ok(Collision([1, 0, 0, 0, 0, 0, 0, 0, 0, 0, 0, 0, 0, 0, 0, 0, 0, 0, 0, 0, 0, 0, 0, 0, 0, 0, 0, 0, 0, 0, 0, 0, 0, 1, 1, 1, 1, 1, 1, 1, 1, 1, 1, 1, 1, 1, 1, 1, 1, 1, 1, 1, 1, 1, 1, 1, 1, 1, 1, 1, 1, 1, 1, 1, 1], [1, 0, 0, 0, 0, 0, 0, 0, 0, 0, 0, 0, 0, 0, 0, 0, 0, 0, 0, 0, 0, 0, 0, 0, 0, 0, 0, 0, 0, 0, 0, 0, 0, 0, 0, 0, 0, 0, 0, 0, 0, 0, 0, 0, 0, 0, 0, 0, 0, 0, 0, 0, 0, 0, 0, 0, 0, 0, 0, 0, 0, 0, 0, 0, 0]))
explain AB A 0 ZEROS Ok(Holds)";
    assert!(rt; right_rows(rt.alloc(), &mut Auditor::new(ZeroHash), rows) == 4);
}

// Takes in a leaf, and tries again if memory was refused, because nothing has changed then.
fn taken_at_last(
    alloc: Global,
    monitor: &mut Monitor<Sha256Hash>,
    next: Head,
    bytes: &[u8],
) -> Result<bool, AllocError> {
    let last = monitor.last_head();
    let count = monitor.leaves().len();
    let mut answer = monitor.observe(next, one_byte_leaves(alloc, bytes)?);
    if let Err(MonitorFault::Memory) = answer {
        if monitor.last_head() != last || monitor.leaves().len() != count {
            return Ok(false);
        }
        answer = monitor.observe(next, one_byte_leaves(alloc, bytes)?);
    }
    Ok(answer == Ok(()))
}

// A monitor that is called again if memory was refused.
#[derive(Drop)]
struct Patient {
    monitor: Monitor<Sha256Hash>,
}

impl Shown for Patient {
    // Checks a row of a head and its new leaves, and all leaves that are kept then.
    fn is_right(&mut self, alloc: Global, mut row: Row<'_>) -> bool {
        let next = row.head();
        let bytes = row.text();
        let is_taken = taken_at_last(alloc, &mut self.monitor, next, bytes) == Ok(true);
        let kept = row.leaves(alloc);
        is_taken && is_at(&self.monitor, &kept, next) && row.ends_in(alloc, &())
    }
}

#[test]
fn a_refused_growth_changes_nothing(rt: HostRuntime) {
    let mut patient = Patient {
        monitor: Monitor::new(rt.alloc(), Sha256Hash),
    };
    let rows = "\
1 5 A A A ()
2 6 AB B AB ()
3 7 ABC C ABC ()";
    assert!(rt; right_rows(rt.alloc(), &mut patient, rows) == 3);
}

// Shows a head and its new leaves to a monitor and to a follower. Returns the result of both, if both give the same result, have the same
// last head, and leave the leaves in place if the head is refused.
fn both_answer(
    alloc: Global,
    monitor: &mut Monitor<Sha256Hash>,
    follower: &mut Follower<Sha256Hash>,
    next: Head,
    bytes: &[u8],
) -> Result<Option<Result<(), MonitorFault>>, AllocError> {
    let mut leaves = one_byte_leaves(alloc, bytes)?;
    let followed = follower.observe(next, &leaves);
    let observed = monitor.observe_from(next, &mut leaves);
    let left = if observed.is_ok() { 0 } else { bytes.len() };
    let agree = followed == observed && follower.last_head() == monitor.last_head();
    if agree && leaves.len() == left {
        Ok(Some(observed))
    } else {
        Ok(None)
    }
}

// The follower with the same parts.
fn made_again(follower: &Follower<Sha256Hash>) -> Result<Follower<Sha256Hash>, AllocError> {
    let saved = follower.peaks().copied()?;
    Ok(Follower::from_parts(Sha256Hash, saved, follower.last_head()))
}

// A monitor and a follower.
#[derive(Drop)]
struct Both {
    monitor: Monitor<Sha256Hash>,
    follower: Follower<Sha256Hash>,
}

impl Both {
    fn make_follower_again(&mut self) -> bool {
        match made_again(&self.follower) {
            Ok(follower) => {
                self.follower = follower;
                true
            }
            Err(_) => false,
        }
    }
}

impl Shown for Both {
    // Checks a row of a head and its new leaves. The follower is made again from its parts after each.
    fn is_right(&mut self, alloc: Global, mut row: Row<'_>) -> bool {
        let next = row.head();
        let bytes = row.text();
        match both_answer(alloc, &mut self.monitor, &mut self.follower, next, bytes) {
            Ok(Some(answer)) => self.make_follower_again() && row.ends_in(alloc, &answer),
            _ => false,
        }
    }
}

// Checks a row of a monitor's leaves and last head, and of a follower's size, subtrees and root.
fn are_at(alloc: Global, both: &Both, mut row: Row<'_>) -> bool {
    let kept = row.leaves(alloc);
    let last = row.head();
    is_at(&both.monitor, &kept, last) && is_peaks(alloc, both.follower.peaks(), row)
}

fn is_peaks(alloc: Global, peaks: &Peaks, mut row: Row<'_>) -> bool {
    let size = row.number();
    let subtrees = row.hashes(alloc);
    let root = row.hash();
    peaks.size() == size
        && peaks.subtrees() == subtrees.as_slice()
        && peaks.root(&Sha256Hash) == root
        && row.ends_in(alloc, &())
}

#[test]
fn a_follower_answers_as_a_monitor(rt: HostRuntime) {
    let mut both = Both {
        monitor: Monitor::new(rt.alloc(), Sha256Hash),
        follower: Follower::new(rt.alloc(), Sha256Hash),
    };
    let rows = "\
1 5 A A Ok(())
1 6 SEVENS - Err(Fork)
0 6 A - Err(Shrunk)
1 4 A - Err(TimeNotLater)
3 6 ABC B Err(CountMismatch)
2 6 ABC B Err(RootMismatch)
2 6 AB B Ok(())
2 6 AB - Ok(())
3 7 ABC C Ok(())";
    assert!(rt; right_rows(rt.alloc(), &mut both, rows) == 9);
    assert!(rt; are_at(rt.alloc(), &both, Row::new("ABC 3 7 ABC 3 AB,C ABC ()")));
}

// The watcher with the same parts.
fn watched_again(watcher: &Watcher<Sha256Hash>) -> Result<Watcher<Sha256Hash>, AllocError> {
    let sure = watcher.sure().copied()?;
    let all = watcher.all().copied()?;
    let (accepted, waiting) = (watcher.accepted(), watcher.waiting());
    let newest = watcher.newest();
    Ok(Watcher::from_parts(Sha256Hash, accepted, waiting, newest, sure, all))
}

// Makes a watcher again from its parts.
fn is_made_again(watcher: &mut Watcher<Sha256Hash>) -> bool {
    match watched_again(watcher) {
        Ok(again) => {
            *watcher = again;
            true
        }
        Err(_) => false,
    }
}

// The verdict on a row of entries: the number of the first, and the leaves.
fn said_of_entries(
    alloc: Global,
    watcher: &mut Watcher<Sha256Hash>,
    row: &mut Row<'_>,
) -> Result<Verdict, AllocError> {
    let start = row.number();
    let leaves = row.leaves(alloc);
    watcher.take_entries(start, &leaves)
}

// The verdict on a row of this kind, and whether it accuses the log.
fn said(
    alloc: Global,
    watcher: &mut Watcher<Sha256Hash>,
    kind: &str,
    row: &mut Row<'_>,
) -> Option<(Verdict, bool)> {
    let verdict = match kind {
        "head" => watcher.take_head(row.head()).ok()?,
        "entries" => said_of_entries(alloc, watcher, row).ok()?,
        "proof" => watcher.take_proof(&row.hashes(alloc)),
        "older" => {
            let head = row.head();
            watcher.take_older(head, &row.hashes(alloc))
        }
        _ => return None,
    };
    Some((verdict, verdict.accuses()))
}

// Reports whether this is the verdict, and whether it accuses the log as the row says.
fn is_said(alloc: Global, watcher: &mut Watcher<Sha256Hash>, kind: &str, mut row: Row<'_>) -> bool {
    match said(alloc, watcher, kind, &mut row) {
        Some(said) => row.ends_in(alloc, &said),
        None => false,
    }
}

impl Shown for Watcher<Sha256Hash> {
    fn is_right(&mut self, alloc: Global, mut row: Row<'_>) -> bool {
        let no_head = self.waiting() == None;
        match row.word() {
            "made-again" => row.ends_in(alloc, &is_made_again(self)),
            "accepted" => {
                let is_last = self.accepted() == Some(row.head());
                row.ends_in(alloc, &(is_last, no_head))
            }
            "all" => row.ends_in(alloc, &(self.all().size(), no_head)),
            kind => is_said(alloc, self, kind, row),
        }
    }
}

fn watched(rt: &HostRuntime, rows: &str) -> u32 {
    right_rows(rt.alloc(), &mut Watcher::new(rt.alloc(), Sha256Hash), rows)
}

// Groups of rows, each for a watcher of its own, with the number of rows.
const WATCHED: [(u32, &str); 5] = [
    // A watcher takes answers.
    (
        9,
        "\
head 1 5 A (Pending, false)
entries 0 ABC (Accepted, false)
head 3 7 ABC (Pending, false)
proof B,C (Consistent, false)
entries 2 C (Gap, false)
entries 1 B (Pending, false)
made-again true
entries 2 C (Accepted, false)
accepted 3 7 ABC (true, true)",
    ),
    // A watcher reports evidence against a log. Python's hashlib computed the reported root of the leaves 41 to 44.
    (
        10,
        "\
head 3 7 ABC (Pending, false)
entries 0 ABC (Accepted, false)
head 2 6 AB (Older(Head { tree_size: 3, timestamp: 7, root: [150, 29, 46, 43, 226, 15, 83, 143, 253, 245, 105, 98, 168, 109, 27, 209, 101, 73, 143, 34, 38, 132, 238, 76, 94, 2, 193, 233, 248, 82, 173, 197] }), false)
head 2 7 AB (Shrunk(Head { tree_size: 3, timestamp: 7, root: [150, 29, 46, 43, 226, 15, 83, 143, 253, 245, 105, 98, 168, 109, 27, 209, 101, 73, 143, 34, 38, 132, 238, 76, 94, 2, 193, 233, 248, 82, 173, 197] }), true)
head 3 9 ABC (Again, false)
head 3 9 A (Fork(Head { tree_size: 3, timestamp: 7, root: [150, 29, 46, 43, 226, 15, 83, 143, 253, 245, 105, 98, 168, 109, 27, 209, 101, 73, 143, 34, 38, 132, 238, 76, 94, 2, 193, 233, 248, 82, 173, 197] }), true)
head 4 9 ABC (TimeNotLater(Head { tree_size: 3, timestamp: 9, root: [150, 29, 46, 43, 226, 15, 83, 143, 253, 245, 105, 98, 168, 109, 27, 209, 101, 73, 143, 34, 38, 132, 238, 76, 94, 2, 193, 233, 248, 82, 173, 197] }), true)
head 4 10 ABC (Pending, false)
entries 3 D (RootMismatch([92, 141, 198, 23, 210, 135, 164, 41, 126, 178, 188, 184, 27, 55, 100, 75, 81, 56, 229, 122, 212, 97, 198, 87, 219, 21, 33, 9, 227, 252, 159, 202]), true)
all (3, true)",
    ),
    // A head is compared with the accepted and with the waiting head, and with each timestamp of both.
    (
        8,
        "\
head 3 7 ABC (Pending, false)
entries 0 ABC (Accepted, false)
head 4 9 ABCD (Pending, false)
head 3 9 ABC (Shrunk(Head { tree_size: 4, timestamp: 9, root: [92, 141, 198, 23, 210, 135, 164, 41, 126, 178, 188, 184, 27, 55, 100, 75, 81, 56, 229, 122, 212, 97, 198, 87, 219, 21, 33, 9, 227, 252, 159, 202] }), true)
head 3 8 ABC (Again, false)
head 4 8 ABCD (TimeNotLater(Head { tree_size: 3, timestamp: 8, root: [150, 29, 46, 43, 226, 15, 83, 143, 253, 245, 105, 98, 168, 109, 27, 209, 101, 73, 143, 34, 38, 132, 238, 76, 94, 2, 193, 233, 248, 82, 173, 197] }), true)
head 4 20 ABCD (Again, false)
head 5 20 ABCDE (TimeNotLater(Head { tree_size: 4, timestamp: 20, root: [92, 141, 198, 23, 210, 135, 164, 41, 126, 178, 188, 184, 27, 55, 100, 75, 81, 56, 229, 122, 212, 97, 198, 87, 219, 21, 33, 9, 227, 252, 159, 202] }), true)",
    ),
    // A proof leads from an older head to the accepted one, or to the waiting one.
    (
        9,
        "\
head 3 7 ABC (Pending, false)
older 2 6 AB C (Consistent, false)
entries 0 ABC (Accepted, false)
older 2 6 AB C (Consistent, false)
older 2 6 A C (Inconsistent(RootMismatch), false)
older 2 6 AB - (Inconsistent(EmptyPath), false)
older 0 1 SEVENS - (Inconsistent(FirstMismatch), false)
older 3 7 ABC - (Gap, false)
older 9 1 ABC C (Gap, false)",
    ),
    // A larger head is later than the known heads, the accepted and the waiting one. The roots are those of the rows before.
    (
        10,
        "\
head 3 7 ABC (Pending, false)
entries 0 ABC (Accepted, false)
head 4 7 ABCD (TimeNotLater(Head { tree_size: 3, timestamp: 7, root: [150, 29, 46, 43, 226, 15, 83, 143, 253, 245, 105, 98, 168, 109, 27, 209, 101, 73, 143, 34, 38, 132, 238, 76, 94, 2, 193, 233, 248, 82, 173, 197] }), true)
head 4 6 ABCD (TimeNotLater(Head { tree_size: 3, timestamp: 7, root: [150, 29, 46, 43, 226, 15, 83, 143, 253, 245, 105, 98, 168, 109, 27, 209, 101, 73, 143, 34, 38, 132, 238, 76, 94, 2, 193, 233, 248, 82, 173, 197] }), true)
head 4 8 ABCD (Pending, false)
head 5 8 ABCDE (TimeNotLater(Head { tree_size: 4, timestamp: 8, root: [92, 141, 198, 23, 210, 135, 164, 41, 126, 178, 188, 184, 27, 55, 100, 75, 81, 56, 229, 122, 212, 97, 198, 87, 219, 21, 33, 9, 227, 252, 159, 202] }), true)
head 5 7 ABCDE (TimeNotLater(Head { tree_size: 3, timestamp: 7, root: [150, 29, 46, 43, 226, 15, 83, 143, 253, 245, 105, 98, 168, 109, 27, 209, 101, 73, 143, 34, 38, 132, 238, 76, 94, 2, 193, 233, 248, 82, 173, 197] }), true)
head 5 9 ABCDE (Pending, false)
entries 3 DE (Accepted, false)
accepted 4 8 ABCD (true, true)",
    ),
];

#[test]
fn a_watcher_answers(rt: HostRuntime) {
    for (count, rows) in &WATCHED {
        assert!(rt; watched(&rt, rows) == *count);
    }
}

// As many leaves as given, from a number on: each is its number in four bytes.
fn numbered_leaves(alloc: Global, first: u64, count: u64) -> Result<Vec<Vec<u8>>, AllocError> {
    let mut leaves = Vec::new(alloc);
    for place in 0..count {
        let number = first.wrapping_add(place);
        leaves.push(Vec::from_slice(alloc, &number.to_be_bytes()[4..])?)?;
    }
    Ok(leaves)
}

// Reports whether the monitor takes a given number of heads with a given number of new leaves each; `Peaks` computes their roots.
fn takes_heads(
    alloc: Global,
    monitor: &mut Monitor<Sha256Hash>,
    heads: u64,
    leaves_each: u64,
) -> Result<bool, AllocError> {
    let mut peaks = Peaks::from_parts(0, Vec::new(alloc));
    for timestamp in 0..heads {
        let leaves = numbered_leaves(alloc, peaks.size(), leaves_each)?;
        peaks.push_leaves(&Sha256Hash, &leaves)?;
        let next = Head {
            tree_size: peaks.size(),
            timestamp,
            root: peaks.root(&Sha256Hash),
        };
        if monitor.observe(next, leaves) != Ok(()) {
            return Ok(false);
        }
    }
    Ok(true)
}

// A monitor of many leaves.
#[derive(Drop)]
struct Long {
    monitor: Monitor<Sha256Hash>,
}

impl Shown for Long {
    // Checks a row of the number of leaves and the last head, then of a head without new leaves, and the result.
    fn is_right(&mut self, alloc: Global, mut row: Row<'_>) -> bool {
        let count = row.number();
        let last = row.head();
        let is_there = self.monitor.leaves().len() as u64 == count
            && self.monitor.last_head() == Some(last);
        let answer = self.monitor.observe(row.head(), Vec::new(alloc));
        is_there && row.ends_in(alloc, &answer)
    }
}

// The number of rows for which a monitor gives the right result after it has taken a given number of heads with a given number of new
// leaves each.
fn answered_behind_heads(
    alloc: Global,
    heads: u64,
    leaves_each: u64,
    rows: &str,
) -> Result<u32, AllocError> {
    let mut long = Long {
        monitor: Monitor::new(alloc, Sha256Hash),
    };
    if !takes_heads(alloc, &mut long.monitor, heads, leaves_each)? {
        return Ok(0);
    }
    Ok(right_rows(alloc, &mut long, rows))
}

#[test]
fn a_monitor_follows_300_heads_of_ten_leaves(rt: HostRuntime) -> Result<(), Fail> {
    let rows = "\
3000 3000 299 ALL_3000 3000 299 ALL_3000 Ok(())
3000 3000 299 ALL_3000 3000 300 ABC Err(Fork)";
    assert!(rt; answered_behind_heads(rt.alloc(), 300, 10, rows)? == 2);
    Ok(())
}

#[test]
fn a_monitor_follows_1100_heads_of_one_leaf(rt: HostRuntime) -> Result<(), Fail> {
    let rows = "\
1100 1100 1099 ALL_1100 1100 1099 ALL_1100 Ok(())
1100 1100 1099 ALL_1100 1100 1100 ABC Err(Fork)
1100 1100 1099 ALL_1100 1099 1100 ABC Err(Shrunk)";
    assert!(rt; answered_behind_heads(rt.alloc(), 1100, 1, rows)? == 3);
    Ok(())
}
