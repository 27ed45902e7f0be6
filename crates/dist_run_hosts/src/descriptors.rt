//! How the descriptors of the process are shared out.

ghost use Rattle.std.specs.Prelude.{◌≡◌, ◌↔◌, ◌<◌, ◌≤◌, ◌+◌, ◌*◌, IsTrue};
ghost use Rattle.dist_run_hosts.specs.Places.{kept_for, clients_for, node_share};

use libc::types::rlimit;

// What the process has beside its nodes and dials: three standard streams, its nodes file, the socket and the poll of the port
// mapper, two lookups at once, and one for a client of the port mapper that comes and is closed.
const OF_PROGRAM: usize = 9;

// What each node has: its listener, its registration, and one for a connection that comes and is closed.
const OF_NODE: usize = 3;

// What each dial has: the sockets at its two ends.
const OF_DIAL: usize = 2;

// The most clients of the port mapper at once: 1,024 nodes that are registered, and others that ask.
const MOST_CLIENTS: usize = 1280;

// Of the clients of the port mapper those that are no nodes of the run: two lookups, and a stranger.
const OTHER_CLIENTS: usize = 3;

// How many descriptors are counted on where the system does not say.
const USUAL: usize = 1024;

/// How many descriptors each part of a run may have.
#[derive(Clone, Copy)]
pub struct Places {
    /// Those that are kept for the program itself, its nodes and its dials: no stranger takes them.
    pub kept: usize,
    /// The most clients of the port mapper at once.
    pub clients: usize,
    /// The most connections at once that came to one node, beside those of the run's dials to it.
    pub node: usize,
    /// Whether the process may have fewer than are kept and the port mapper's clients are.
    pub is_short: bool,
}

/// How many descriptors the process may have: 1,024 where the system does not say.
pub fn most_descriptors() -> usize {
    let mut limit = rlimit {
        rlim_cur: 0,
        rlim_max: 0,
    };
    if libc::getrlimit(libc::RLIMIT_NOFILE, &mut limit) != 0 {
        return USUAL;
    }
    usize::try_from(limit.rlim_cur).unwrap_or(usize::MAX)
}

/// Shares out descriptors among this many nodes that make this many dials. The port mapper has a quarter of them, at most 1,280
/// and no fewer than the run itself needs; each node has the same part of what is neither that nor kept.
pub fn places_of(most: usize, nodes: u16, dials: u16) -> Places
    ensures kept { result.kept ≡ kept_for nodes dials }
    ensures clients { result.clients ≡ clients_for most nodes }
    ensures node { result.node ≡ node_share most nodes dials }
    ensures short { IsTrue result.is_short ↔ (most < result.kept + result.clients) }
    ensures fits { result.kept + result.clients ≤ most → result.kept + result.clients + nodes * result.node ≤ most }
{
    let (nodes, dials) = (usize::from(nodes), usize::from(dials));
    let kept = OF_PROGRAM + OF_NODE * nodes + OF_DIAL * dials;
    let clients = (most / 4).max(nodes + OTHER_CLIENTS).min(MOST_CLIENTS);
    let rest = most.saturating_sub(kept + clients);
    Places {
        kept,
        clients,
        node: rest / nodes.max(1),
        is_short: most < kept + clients,
    }
}
