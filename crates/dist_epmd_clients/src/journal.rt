//! The events that wait for whoever reads them, and the counts of all.

ghost use Rattle.std.specs.Prelude.{◌≤◌, vec_capacity};

use crate::counts::Counts;
use crate::event::ClientEvent;
use std::alloc::{AllocError, Global};

/// The events that wait for whoever reads them, at most so many, and the counts of all.
#[derive(Drop)]
pub struct Journal {
    pub(crate) counts: Counts,
    pub(crate) events: Vec<ClientEvent>,
    most: usize,
    // The memory of all that may wait was taken when it was asked for.
    ghost reserved: { most ≤ vec_capacity events },
}

impl Journal {
    ghost use Rattle.std.specs.Prelude.{◌≡◌, [], OnOk, OnErr};
    ghost use Rattle.dist_epmd_clients.specs.Journal.{counts_in, events_in, most_in, no_counts, HasEvents, Lists, Journals};

    /// Nothing happened yet, and no event is kept: it only counts. It takes no memory.
    pub fn new(alloc: Global) -> Journal
        ensures counts { counts_in result ≡ no_counts }
        ensures events { events_in result ≡ [] }
        ensures most { most_in result ≡ 0 }
    {
        Journal {
            counts: Counts::new(),
            events: Vec::new(alloc),
            most: 0,
        }
    }

    /// From now on so many events may wait: their memory is taken now.
    pub fn keep(&mut self, most: usize) -> Result<(), AllocError>
        ensures events { events_in self.new ≡ events_in self.old }
        ensures counts { counts_in self.new ≡ counts_in self.old }
        ensures ok { OnOk result (most_in self.new ≡ most) }
        ensures err { OnErr result (most_in self.new ≡ most_in self.old) }
    {
        self.events.reserve(most.saturating_sub(self.events.len()))?;
        self.most = most;
        Ok(())
    }

    /// Keeps none of the events that wait.
    pub fn forget(&mut self)
        ensures { HasEvents [] self.old self.new }
    {
        self.events.clear();
    }

    /// Keeps an event that was counted, where fewer wait than may. Otherwise it is missed.
    fn list(&mut self, event: ClientEvent)
        ensures { Lists event self.old self.new }
    {
        if self.events.len() >= self.most {
            self.counts.missed = self.counts.missed.saturating_add(1);
            return;
        }
        let _ = self.events.push(event);
    }

    /// Counts an event, and keeps it where it is for a log. `None`: nothing happened.
    pub fn note(&mut self, event: Option<ClientEvent>)
        ensures { Journals event self.old self.new }
    {
        let Some(event) = event else {
            return;
        };
        self.counts.count(&event);
        if event.is_line() {
            self.list(event);
        }
    }
}
