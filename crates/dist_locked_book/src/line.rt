ghost use Rattle.std.specs.Prelude.{◌≡◌, ◌↔◌, IfOk, IsOk, IsTrue};
ghost use Rattle.dist_core.specs.Losses.{IsSilent, is_loss};

use dist_core::{Event, Reply};
use std::alloc::{AllocError, Global};

/// One step in the history of a node.
#[derive(Drop)]
pub struct Line {
    /// Its number among the steps of all nodes that share their tickets.
    pub ticket: u64,
    /// The number of the seat that made it.
    pub seat: u32,
    /// The event that the node got.
    pub event: Event,
    /// The number that was drawn for it: the challenge, where the step sends one.
    pub fresh: u32,
    /// What the node replied.
    pub reply: Reply,
}

impl Line {
    /// An equal line. That of a loss takes no memory.
    pub fn try_clone(&self, alloc: Global) -> Result<Line, AllocError>
        ensures same { IfOk result (λ l. l ≡ self.now) }
        ensures loss { IsTrue (is_loss self.now.event) → IsSilent self.now.reply → IsOk result }
    {
        let event = self.event.try_clone(alloc)?;
        let reply = self.reply.try_clone(alloc)?;
        Ok(Line {
            ticket: self.ticket,
            seat: self.seat,
            event,
            fresh: self.fresh,
            reply,
        })
    }

    /// Whether the two lines are equal.
    pub fn is_same(&self, other: &Line) -> bool
        ensures { IsTrue result ↔ (self.now ≡ other.now) }
    {
        self.ticket == other.ticket
            && self.seat == other.seat
            && self.fresh == other.fresh
            && self.event.is_same(&other.event)
            && self.reply.is_same(&other.reply)
    }
}
