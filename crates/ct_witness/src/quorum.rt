//! The number of cosignatures that are enough.
ghost use Rattle.std.specs.Prelude.{◌↔◌, ◌+◌, ◌<◌, ◌≤◌, IsTrue, count_by};

/// Reports whether at least `least` of the witnesses cosigned a tree. `cosigned` says for each witness whether it did.
pub fn has_quorum(cosigned: &[bool], least: usize) -> bool
    ensures { IsTrue result ↔ (least ≤ count_by (λ mark. mark) cosigned.now) }
{
    least <= cosigned.iter().filter(|mark| **mark).count()
}

/// Reports whether, among this many witnesses of which this many may be faulty, every `first` of them share an honest witness with every
/// `second` of them ([`crate::laws::quorums`], [`crate::laws::bound`]).
pub fn is_safe(witnesses: u32, faulty: u32, first: u32, second: u32) -> bool
    ensures { IsTrue result ↔ (witnesses + faulty < first + second) }
{
    u64::from(witnesses) + u64::from(faulty) < u64::from(first) + u64::from(second)
}
