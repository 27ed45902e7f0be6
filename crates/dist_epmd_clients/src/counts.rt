//! How often what happened.

ghost use Rattle.std.specs.Prelude.{◌≡◌};
ghost use Rattle.dist_epmd_clients.specs.Journal.{with_event, no_counts};

use crate::event::ClientEvent;

/// How often what happened since the start. A count that has reached 18,446,744,073,709,551,615 stays.
#[derive(Clone, Copy, Debug, PartialEq, Eq)]
pub struct Counts {
    /// Nodes that were registered.
    pub registered: u64,
    /// Registrations that ended with their connection.
    pub ended: u64,
    /// Registrations that were refused.
    pub refused: u64,
    /// Questions for one node.
    pub looked_up: u64,
    /// Questions for all names.
    pub listed: u64,
    /// Clients that asked for nothing that is answered.
    pub unanswered: u64,
    /// Clients that made room before they had asked.
    pub made_room: u64,
    /// Clients that had not asked within their time.
    pub late: u64,
    /// Clients for which memory ran out.
    pub no_memory: u64,
    /// Events that are kept nowhere: as many waited as may.
    pub missed: u64,
}

impl Counts {
    /// Nothing happened yet.
    pub fn new() -> Counts
        ensures { result ≡ no_counts }
    {
        Counts {
            registered: 0,
            ended: 0,
            refused: 0,
            looked_up: 0,
            listed: 0,
            unanswered: 0,
            made_room: 0,
            late: 0,
            no_memory: 0,
            missed: 0,
        }
    }

    /// One event more.
    pub(crate) fn count(&mut self, event: &ClientEvent)
        ensures { self.new ≡ with_event event.now self.old }
    {
        match event {
            ClientEvent::Registered { .. } => self.registered = self.registered.saturating_add(1),
            ClientEvent::Ended { .. } => self.ended = self.ended.saturating_add(1),
            ClientEvent::Refused { .. } => self.refused = self.refused.saturating_add(1),
            ClientEvent::LookedUp => self.looked_up = self.looked_up.saturating_add(1),
            ClientEvent::Listed => self.listed = self.listed.saturating_add(1),
            ClientEvent::Unanswered { .. } => self.unanswered = self.unanswered.saturating_add(1),
            ClientEvent::MadeRoom { .. } => self.made_room = self.made_room.saturating_add(1),
            ClientEvent::Late { count } => self.late = self.late.saturating_add(*count),
            ClientEvent::NoMemory { .. } => self.no_memory = self.no_memory.saturating_add(1),
        }
    }
}
