//! How long the answers of one target took.

ghost use Rattle.std.specs.Prelude.{◌≡◌, [], IfOk, OnOk, OnErr, MatchOption};
ghost use Rattle.dist_cluster.specs.Latency.{Summarizes, empty_tally, with_latency};

use std::alloc::{AllocError, Global};
use std::marker::Model;

/// How many latencies are kept for the median: the last ones. Our own choice, so that a watch of months takes no more memory than
/// one of hours.
pub const MOST_KEPT: usize = 1024;

/// A summary of latencies, in the unit in which they were noted.
#[derive(Clone, Copy, PartialEq, Eq)]
pub struct LatencySummary {
    /// How many there were, at most the greatest `u64`.
    pub count: u64,
    /// The least of all.
    pub least: u64,
    /// The median of the last 1,024: of an even number of them, the lower of the two in the middle.
    pub median: u64,
    /// The greatest of all.
    pub worst: u64,
}

/// The latencies of one target, in whatever unit the caller notes them. The caller chooses which answers count, for instance those
/// of a node that is up.
#[derive(Drop)]
pub struct Latencies {
    // Where memory for the latencies comes from.
    alloc: Global,
    count: u64,
    least: u64,
    worst: u64,
    // The last ones, the oldest first.
    recent: Vec<u64>,
}

impl Model for Latencies {
    ghost use Rattle.std.specs.Prelude.{◌≤◌, vec_len};
    ghost use Rattle.dist_cluster.specs.Latency.{Tally, most_kept};

    ghost Value = { Tally };

    ghost view = { λ l. record { count = l.count; least = l.least; worst = l.worst; recent = l.recent.items } };

    ghost invariant = { λ l. vec_len l.recent ≤ most_kept };
}

impl Latencies {
    /// No latencies. It takes no memory.
    pub fn new(alloc: Global) -> Latencies
        ensures { result ≡ empty_tally }
    {
        Latencies {
            alloc,
            count: 0,
            least: u64::MAX,
            worst: 0,
            recent: Vec::new(alloc),
        }
    }

    /// Notes one more latency. An `Err` changes nothing.
    pub fn note(&mut self, latency: u64) -> Result<(), AllocError>
        ensures ok { OnOk result (self.new ≡ with_latency self.old latency) }
        ensures err { OnErr result (self.new ≡ self.old) }
    {
        self.recent.push(latency)?;
        if self.recent.len() > MOST_KEPT {
            self.recent.remove(0);
        }
        self.count = self.count.saturating_add(1);
        self.least = self.least.min(latency);
        self.worst = self.worst.max(latency);
        Ok(())
    }

    /// The summary of what was noted. `None` where nothing was noted.
    pub fn summary(&self) -> Result<Option<LatencySummary>, AllocError>
        ensures { IfOk result (λ summary. MatchOption summary (self.now.recent ≡ []) (λ s. Summarizes s self.now)) }
    {
        if self.recent.is_empty() {
            return Ok(None);
        }
        let mut sorted = Vec::from_slice(self.alloc, &self.recent)?;
        sorted.sort()?;
        Ok(Some(LatencySummary {
            count: self.count,
            least: self.least,
            median: sorted[(sorted.len() - 1) / 2],
            worst: self.worst,
        }))
    }
}
