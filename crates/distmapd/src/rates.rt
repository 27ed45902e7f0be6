//! How many lines of each kind a log may have in a second, so that no client fills a disk, and no kind crowds out the lines of others.

ghost use Rattle.std.specs.Prelude.{◌<◌};

use dist_epmd_clients::ClientEvent;
use std::mem;

/// The most lines of a kind in a second. Our own choice.
const LINES: u32 = 100;

/// How many lines of a kind were written in the second of the last one.
#[derive(Clone, Copy)]
pub struct Rate {
    second: u64,
    lines: u32,
}

/// The rates of all kinds of events, and how many lines were left out and not yet reported.
#[derive(Clone, Copy)]
pub struct Rates {
    // By the place of the kind.
    kinds: [Rate; 8],
    left_out: u64,
    // The second in which a line was last left out.
    second: u64,
    // How many events had been missed when the log last looked.
    missed: u64,
}

// The place of an event's kind; all kinds without a line share one.
fn place_of(event: &ClientEvent) -> usize
    ensures { result < 8 }
{
    match event {
        ClientEvent::Registered { .. } => 0,
        ClientEvent::Ended { .. } => 1,
        ClientEvent::Refused { .. } => 2,
        ClientEvent::Unanswered { .. } => 3,
        ClientEvent::MadeRoom { .. } => 4,
        ClientEvent::Late { .. } => 5,
        ClientEvent::NoMemory { .. } => 6,
        ClientEvent::LookedUp | ClientEvent::Listed => 7,
    }
}

impl Rate {
    // Asks for one more line in this second.
    fn admit(&mut self, now: u64) -> bool {
        if now != self.second {
            (self.second, self.lines) = (now, 1);
            return true;
        }
        if self.lines >= LINES {
            return false;
        }
        self.lines += 1;
        true
    }
}

impl Rates {
    /// No line was written, and none left out.
    pub fn new() -> Rates {
        let none = Rate {
            second: 0,
            lines: 0,
        };
        Rates {
            kinds: [none; 8],
            left_out: 0,
            second: 0,
            missed: 0,
        }
    }

    /// Asks for one more line of an event's kind in this second.
    pub fn admit(&mut self, event: &ClientEvent, now: u64) -> bool {
        self.kinds[place_of(event)].admit(now)
    }

    /// Counts this many more lines as left out in this second.
    pub fn leave_out(&mut self, count: u64, now: u64) {
        self.left_out = self.left_out.saturating_add(count);
        self.second = now;
    }

    /// Counts the events that were missed since the log last looked as left out, by how many were missed before now.
    pub fn leave_out_missed(&mut self, missed: u64, now: u64) {
        let count = missed.saturating_sub(self.missed);
        self.missed = missed;
        if count > 0 {
            self.leave_out(count, now);
        }
    }

    /// How many lines were left out since the last call, once the second of the last one is over.
    pub fn take_left_out(&mut self, now: u64) -> u64 {
        if now == self.second {
            return 0;
        }
        mem::replace(&mut self.left_out, 0)
    }
}
