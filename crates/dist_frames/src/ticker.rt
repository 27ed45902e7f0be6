//! The times of a link, and what is due.
ghost use Rattle.std.specs.Prelude.{◌≡◌, ◌<◌};
ghost use Rattle.dist_frames.specs.Ticking.{due_at, after_read, after_write, times_from};

use std::marker::Model;

/// What is due on a link.
#[derive(Clone, Copy, Debug, PartialEq, Eq)]
pub enum Due {
    /// Nothing for this many milliseconds, if nothing is read or written meanwhile. At least 1.
    Nothing { wait: u64 },
    /// A tick: nothing was written for a quarter of the time of a tick. Whoever writes it calls `note_write`, as after all that it
    /// writes.
    Tick,
    /// Nothing was read for the whole time: the link is given up, and its loss reported to the node (`Why::GaveUp`).
    GiveUp,
}

/// The times of one link, in milliseconds.
#[derive(Drop)]
pub struct Ticker {
    // A quarter of the time after which a silent peer is given up.
    quarter: u64,
    // When something was read last, or when the link came up.
    heard: u64,
    // When something was written last, or when the link came up.
    said: u64,
}

impl Model for Ticker {
    ghost use Rattle.std.specs.Prelude.{◌≤◌, ◌*◌, ◌^◌, ◌<◌};
    ghost use Rattle.dist_frames.specs.Ticking.{Ticking};

    ghost Value = { Ticking };

    ghost view = { λ t. record { quarter = t.quarter; heard = t.heard; said = t.said } };

    ghost invariant = { λ t. (0 < t.quarter) × (4 * t.quarter < 2 ^ 34) };
}

impl Ticker {
    /// The times of a link that comes up now. A silent peer is given up after four times `quarter` milliseconds, of which there
    /// is at least 1; Erlang/OTP has 60,000 for the whole, so quarters of 15,000.
    pub fn new(quarter: u32, now: u64) -> Ticker
        ensures { result ≡ times_from quarter now }
    {
        Ticker {
            quarter: (quarter as u64).max(1),
            heard: now,
            said: now,
        }
    }

    /// Something was read now: a tick, or a part of a packet.
    pub fn note_read(&mut self, now: u64)
        ensures { self.new ≡ after_read now self.old }
    {
        self.heard = self.heard.max(now);
    }

    /// Something was written now: a tick, or a part of a packet.
    pub fn note_write(&mut self, now: u64)
        ensures { self.new ≡ after_write now self.old }
    {
        self.said = self.said.max(now);
    }

    /// What is due now. Where a peer is to be given up, this is returned, even if a tick is due too.
    pub fn due(&self, now: u64) -> Due
        ensures due { result ≡ due_at now self.now }
        ensures quarter { 0 < self.now.quarter }
    {
        let silent = now.saturating_sub(self.heard);
        let quiet = now.saturating_sub(self.said);
        if silent >= 4 * self.quarter {
            Due::GiveUp
        } else if quiet >= self.quarter {
            Due::Tick
        } else {
            Due::Nothing {
                wait: (4 * self.quarter - silent).min(self.quarter - quiet),
            }
        }
    }
}
