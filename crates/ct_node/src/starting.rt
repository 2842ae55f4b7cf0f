//! Decides whether a node that starts may continue from the lock's state.
ghost use Rattle.std.specs.Prelude.{◌≡◌};
ghost use Rattle.ct_node.specs.Starts.{is_at, comes_behind, reaches, reaches_other, is_free_of_other, is_two, guard_reaches, begun, created, started, shown_next};

/// How far a log is according to one of its tree heads.
#[derive(Clone, Copy, Debug, PartialEq, Eq)]
pub struct Point {
    /// The number of entries.
    pub size: u64,
    /// The head's timestamp, in milliseconds.
    pub moment: u64,
}

/// A known tree head other than the lock's.
#[derive(Clone, Copy, Debug, PartialEq, Eq)]
pub struct Other {
    /// How far the log is according to it.
    pub at: Point,
    /// Whether its root is the root of the lock's head.
    pub same: bool,
}

/// The findings of a node about a log when it starts.
#[derive(Clone, Copy, Debug)]
pub struct Found {
    /// The lock's head, or none if there is no lock.
    pub register: Option<Point>,
    /// The newest head that this machine saw.
    pub seen: Option<Other>,
    /// The newest head that is published.
    pub published: Option<Other>,
    /// The newest head that the store lists.
    pub listed: Option<Other>,
    /// Whether a guard protects the log's key.
    pub guarded: bool,
    /// The last head that the guard let through.
    pub guard: Option<Other>,
    /// Whether the store has anything of a log.
    pub stands: bool,
    /// Whether a log may be created if there is none.
    pub creates: bool,
}

/// The decision of a node that starts.
#[derive(Clone, Copy, Debug, PartialEq, Eq)]
pub enum Beginning {
    /// It continues from the lock's state.
    Goes,
    /// It creates the lock.
    Creates,
    /// There is no lock, and none may be created or something of a log exists.
    Gone,
    /// This machine saw a head that the lock's does not reach: one that is larger, one that is no earlier, or one of the same size and
    /// timestamp with another root.
    BehindSeen,
    /// The guard let through a head that the lock's does not reach, of another size or timestamp.
    BehindGuard,
    /// The guard let through a head of the same size and timestamp, with another root.
    TwoRoots,
    /// The store lists a head that the guard's last one does not reach. So the guard is older than the store.
    GuardBehind,
    /// The store lists a head that the lock's does not reach, as for `BehindSeen`.
    BehindListed,
    /// A head is published that the lock's does not reach, as for `BehindSeen`.
    BehindPublished,
}

// Reports whether a head has the size and timestamp of `other`.
fn at(head: Point, other: Point) -> bool
    ensures { result ≡ is_at head other }
{
    head.size == other.size && head.moment == other.moment
}

// Reports whether a head may come after `other`: it has no fewer entries and is later.
fn behind(head: Point, other: Point) -> bool
    ensures { result ≡ comes_behind head other }
{
    head.size >= other.size && head.moment > other.moment
}

// Reports whether a head is `other`, or may come after it.
fn reached(head: Point, other: Point) -> bool
    ensures { result ≡ reaches head other }
{
    at(head, other) || behind(head, other)
}

// Reports the same for a head of which it is known whether its root is that of the lock's.
fn reached_other(head: Point, other: Other) -> bool
    ensures { result ≡ reaches_other head other }
{
    at(head, other.at) && other.same || behind(head, other.at)
}

// Reports whether a head reaches `other`, if there is one.
fn free_of_other(head: Point, other: Option<Other>) -> bool
    ensures { result ≡ is_free_of_other head other }
{
    match other {
        Some(other) => reached_other(head, other),
        None => true,
    }
}

// Reports whether there is another head of this size and timestamp.
fn two(head: Point, other: Option<Other>) -> bool
    ensures { result ≡ is_two head other }
{
    match other {
        Some(other) => at(head, other.at),
        None => false,
    }
}

// Reports whether the guard's last head reaches the listed one, if there is one.
fn guard_reached(guard: Option<Other>, listed: Option<Other>) -> bool
    ensures { result ≡ guard_reaches guard listed }
{
    match (guard, listed) {
        (_, None) => true,
        (Some(guard), Some(listed)) => reached(guard.at, listed.at),
        (None, Some(_)) => false,
    }
}

// Decides what a node does if the lock has this head.
fn begin(found: Found, head: Point) -> Beginning
    ensures { result ≡ begun found head }
{
    if !free_of_other(head, found.seen) {
        return Beginning::BehindSeen;
    }
    if found.guarded && !free_of_other(head, found.guard) {
        return if two(head, found.guard) {
            Beginning::TwoRoots
        } else {
            Beginning::BehindGuard
        };
    }
    if found.guarded && !guard_reached(found.guard, found.listed) {
        return Beginning::GuardBehind;
    }
    if !free_of_other(head, found.listed) {
        return Beginning::BehindListed;
    }
    if !free_of_other(head, found.published) {
        return Beginning::BehindPublished;
    }
    Beginning::Goes
}

// Decides what a node does if there is no lock.
fn create(found: Found) -> Beginning
    ensures { result ≡ created found }
{
    if found.creates
        && found.seen.is_none()
        && found.published.is_none()
        && found.listed.is_none()
        && found.guard.is_none()
        && !found.stands
    {
        Beginning::Creates
    } else {
        Beginning::Gone
    }
}

/// Decides what a node does when it starts, from what it finds. The node must read the lock first, and everything else after that.
pub fn start(found: Found) -> Beginning
    ensures start { result ≡ started found }
{
    match found.register {
        Some(head) => begin(found, head),
        None => create(found),
    }
}

/// Returns the head that a node shows, given the one that it has shown, if any, and one that it finds: the later one.
pub fn show(shown: Option<Point>, found: Point) -> Point
    ensures next { result ≡ shown_next shown found }
{
    match shown {
        Some(shown) => { if behind(found, shown) { found } else { shown } }
        None => found,
    }
}
