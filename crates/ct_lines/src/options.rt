//! The numbers of a log.

ghost use Rattle.std.specs.Prelude.{◌<◌, ◌≤◌};

/// The numbers with which a log is opened and closed.
#[derive(Clone, Copy, Debug)]
pub struct Options {
    /// The number of fronts.
    pub fronts: u16,
    /// The number of slots of each front's ring.
    pub ring: usize,
    /// The timestamp at which the log opens, in milliseconds.
    pub open_at: u64,
    /// The timestamp at which it is closed, in milliseconds.
    pub close_at: u64,
    ghost some_fronts: { 0 < fronts },
    ghost few_fronts: { fronts ≤ 16 },
    ghost some_places: { 0 < ring },
    ghost few_places: { ring ≤ 4096 },
}
