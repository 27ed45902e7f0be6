//! How long a node lasts, and how much it holds.
ghost use Rattle.std.specs.Prelude.{◌≡◌};
ghost use Rattle.dist_core_setup.specs.Limits.{long_running_limits, usual_limits};

/// What a node makes and holds at most. Our own choice: the ERTS User's Guide sets no limits. Each number may be any: a node of
/// 0 ends gives out none, and a node of 0 steps accepts only losses.
#[derive(Clone, Copy, Debug, PartialEq, Eq)]
pub struct Limits {
    /// The most steps that it makes, losses not counted. After them each step except a loss is refused, as `Spent`.
    pub steps: u64,
    /// The most ends that it ever gives out, closed ones counted too. After them a dial and an incoming connection are
    /// refused, as `Spent`. A closed end still takes some bytes of memory.
    pub ends: u32,
    /// The most peers that have an entry at one time. At that number a dial to a further peer is refused, as `Full`, and a
    /// further peer that connects gets the status `not_allowed`.
    pub entries: u32,
    /// The most ends that are open at one time. At that number a dial and an incoming connection are refused, as `Full`.
    pub open_ends: u32,
}

impl Limits {
    /// The usual limits: 1,048,576 steps, as many ends, 1,024 entries and 4,096 open ends. A node with these limits never runs
    /// out of ends while it has steps left. Scripts, nodes files, worlds and books have them.
    pub fn usual() -> Limits
        ensures { result ≡ usual_limits }
    {
        Limits {
            steps: 1048576,
            ends: 1048576,
            entries: 1024,
            open_ends: 4096,
        }
    }

    /// The limits of a node that runs for years: as many steps and ends as can be counted, which are 18,446,744,073,709,551,615
    /// and 4,294,967,295, and 65,536 entries and open ends each. One new connection a second uses up the ends in 136 years.
    pub fn long_running() -> Limits
        ensures { result ≡ long_running_limits }
    {
        Limits {
            steps: u64::MAX,
            ends: u32::MAX,
            entries: 65536,
            open_ends: 65536,
        }
    }
}
