//! The status for many nodes.

ghost use Rattle.std.specs.Prelude.{◌≡◌};
ghost use Rattle.dist_cluster.specs.Statuses.{first_of};

/// The first of two statuses, or the second where the first is 0.
pub fn first_of(first: u8, second: u8) -> u8
    ensures { result ≡ first_of first second }
{
    if first == 0 { second } else { first }
}
