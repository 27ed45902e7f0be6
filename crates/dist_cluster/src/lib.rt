//! What can be said of many nodes at once: which nodes the words of a command line and the lines of a port mapper name, what can be
//! said of each two of them, how many came to each verdict; and where nodes are probed again and again, only the changes, and how
//! long the answers took.
//!
//! No sockets, no clock, no text of its own except the words of pairs. The caller probes, and says what was seen, of which node
//! and when; a `Watch` answers whether that is a change. A `Latencies` keeps what a summary of one node needs, in constant memory.
#![tactic(auto)]

mod change;
mod latencies;
mod laws;
mod name_lines;
mod pairs;
mod statuses;
mod summary;
mod targets;
mod watch;
mod watch_error;

pub use change::{Observation, VerdictChange};
pub use latencies::{Latencies, LatencySummary, MOST_KEPT};
pub use laws::{
    each_change_differs, each_change_is_reported_once, reports_show_how_things_stand,
    what_is_kept_of_latencies,
};
pub use name_lines::name_in_line;
pub use pairs::{AddressKinds, Half, Pairing, pairing_of};
pub use statuses::first_of;
pub use summary::{Summary, WordCount};
pub use targets::{Group, MOST_NODES, ServiceName, Target, USUAL, group_of, target_of, word_in};
pub use watch::Watch;
pub use watch_error::WatchError;
