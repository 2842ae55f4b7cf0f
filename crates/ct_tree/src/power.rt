//! The size at which a tree is split (RFC 6962, section 2.1).
ghost use Rattle.std.specs.Prelude.{◌≡◌, ◌-◌, ◌<◌};
ghost use Rattle.ct_tree.specs.Tree.{split};

/// The largest power of two smaller than `n`: a tree of `n` leaves has that many in its left part (RFC 6962, section 2.1).
pub fn largest_power_below(n: usize) -> usize
    requires { 1 < n }
    ensures split { result ≡ split n }
    ensures positive { 0 < result }
    ensures below { result < n }
{
    let mut power = 1;
    while power < n - power {
        power *= 2;
    }
    power
}
