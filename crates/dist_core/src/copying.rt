//! Equal copies.
ghost use Rattle.std.specs.Prelude.{◌≡◌, IfOk, IsOk, Ok, Some, None, IsTrue};
ghost use Rattle.dist_core.specs.Losses.{IsSilent, is_loss};

use crate::event::Event;
use crate::reply::{Note, Reply};
use dist_core_ends::UpRecord;
use std::alloc::{AllocError, Global};

impl Note {
    /// An equal note. A copy of `Nothing` takes no memory.
    pub fn try_clone(&self, alloc: Global) -> Result<Note, AllocError>
        ensures same { IfOk result (λ copy. copy ≡ self.now) }
        ensures nothing { self.now ≡ Note.Nothing → IsOk result }
    {
        match self {
            Note::Nothing => Ok(Note::Nothing),
            Note::NameTaken { peer, dooms } => Ok(Note::NameTaken {
                peer: peer.try_clone(alloc)?,
                dooms: *dooms,
            }),
            Note::ReplySaid => Ok(Note::ReplySaid),
        }
    }
}

fn copied_up(alloc: Global, up: &Option<UpRecord>) -> Result<Option<UpRecord>, AllocError>
    ensures same { IfOk result (λ copy. copy ≡ up.now) }
    ensures none { up.now ≡ None → IsOk result }
{
    match up {
        None => Ok(None),
        Some(kept) => Ok(Some(kept.try_clone(alloc)?)),
    }
}

impl Reply {
    /// An equal reply. A copy of a silent one, as to a loss, takes no memory.
    pub fn try_clone(&self, alloc: Global) -> Result<Reply, AllocError>
        ensures same { IfOk result (λ copy. copy ≡ self.now) }
        ensures silent { IsSilent self.now → IsOk result }
    {
        Ok(Reply {
            end_: self.end_,
            say: self.say.try_clone(alloc)?,
            closed: self.closed,
            up: copied_up(alloc, &self.up)?,
            note: self.note.try_clone(alloc)?,
        })
    }
}

impl Event {
    /// An equal event. A copy of a loss takes no memory.
    pub fn try_clone(&self, alloc: Global) -> Result<Event, AllocError>
        ensures same { IfOk result (λ copy. copy ≡ self.now) }
        ensures loss { IsTrue (is_loss self.now) → IsOk result }
    {
        match self {
            Event::Dial { peer, opening } => Ok(Event::Dial {
                peer: peer.try_clone(alloc)?,
                opening: *opening,
            }),
            Event::Opened { end_, link } => Ok(Event::Opened {
                end_: *end_,
                link: *link,
            }),
            Event::Incoming { link } => Ok(Event::Incoming { link: *link }),
            Event::Frame { end_, body } => Ok(Event::Frame {
                end_: *end_,
                body: body.try_clone(alloc)?,
            }),
            Event::Lost { end_, why } => Ok(Event::Lost {
                end_: *end_,
                why: *why,
            }),
            Event::Tick { end_ } => Ok(Event::Tick { end_: *end_ }),
        }
    }
}
