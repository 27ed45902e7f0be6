//! Makes the line of a step before the step is made.
ghost use Rattle.std.specs.Prelude.{◌≡◌, IfOk};
ghost use Rattle.dist_locked_book.specs.Sharing.{AreLines};

use super::shared_line::{LineNumbers, SharedLine};
use dist_core::{Event, Keeper, Reply};
use std::alloc::{AllocError, Global};

/// The line of a step three times, and a copy of its reply for whoever hands it on.
#[derive(Drop)]
pub struct LineCopies {
    pub line: SharedLine,
    pub second: SharedLine,
    pub third: SharedLine,
    pub reply: Reply,
}

/// Keeps the reply to an event in a line.
#[derive(Drop)]
pub struct Sharing<'a> {
    pub entry: LineNumbers,
    pub event: &'a Event,
}

impl<'a> Keeper for Sharing<'a> {
    type Kept = LineCopies;

    ghost keeps = { λ s reply kept. AreLines s.entry s.event.now reply kept };

    // Any reply may need memory here.
    ghost is_ready_for = { λ s reply. ⊥ };

    fn keep(&self, alloc: Global, reply: Reply) -> Result<LineCopies, AllocError> {
        let copy = reply.try_clone(alloc)?;
        let event = self.event.try_clone(alloc)?;
        let line = SharedLine::new(alloc, self.entry.line(event, reply))?;
        let (second, third) = (line.try_clone()?, line.try_clone()?);
        Ok(LineCopies {
            line,
            second,
            third,
            reply: copy,
        })
    }

    fn reply<'k>(&self, kept: &'k LineCopies) -> &'k Reply {
        &kept.reply
    }
}
