//! Lines that several holders share.
ghost use Rattle.std.specs.{Prelude.◌≡◌, Prelude.◌↔◌, Prelude.[], Prelude.Some, Prelude.None, Prelude.IfOk, Prelude.IsTrue, Arc.arc_value};
ghost use Rattle.dist_core.specs.declared.event.Event.TheVariants as Event;
ghost use Rattle.dist_core.specs.Clauses.{loss_reply, silent_reply};
ghost use Rattle.dist_locked_book.specs.Lines.{line_in, line_with};

use super::line::Line;
use dist_core::{Event, Note, Reply, Why};
use dist_names::ByteString;
use dist_peers::EndId;
use std::alloc::{AllocError, Global};
use std::marker::Model;
use std::sync::Arc;

/// What a line has besides its event and its reply.
#[derive(Clone, Copy)]
pub struct LineNumbers {
    pub ticket: u64,
    pub seat: u32,
    pub fresh: u32,
}

impl LineNumbers {
    /// The line of a step.
    #[inline(always)]
    pub fn line(self, event: Event, reply: Reply) -> Line
        ensures { result ≡ line_with self event reply }
    {
        Line {
            ticket: self.ticket,
            seat: self.seat,
            event,
            fresh: self.fresh,
            reply,
        }
    }
}

/// How a line is kept: the line of an incoming connection, or of a loss, is so short that it takes no memory of its own.
#[derive(Drop)]
pub enum Kept {
    Shared(Arc<Line>),
    Came {
        entry: LineNumbers,
        link: u64,
        id: EndId,
    },
    Lost {
        entry: LineNumbers,
        id: EndId,
        why: Why,
    },
}

/// A line that several holders share: the history, the seat that made the step, and the caller. Equal copies share the memory, so
/// a copy takes no more. Contracts see the line.
#[derive(Drop)]
pub struct SharedLine {
    kept: Kept,
    alloc: Global,
}

impl Model for SharedLine {
    ghost use Rattle.dist_locked_book.specs.declared.line.Line.{Line};
    ghost use Rattle.dist_locked_book.specs.Lines.{line_of};

    ghost Value = { Line };

    ghost view = { λ l. line_of l.kept };
}

/// A line to read: borrowed, or made anew where it was kept in its short form.
#[derive(Drop)]
pub enum LineView<'a> {
    /// The line that its holders share.
    Lent(&'a Line),
    /// It was kept in its short form.
    Made(Line),
}

impl<'a> LineView<'a> {
    /// The line.
    pub fn line(&self) -> &Line
        ensures { result.now ≡ line_in self.now }
    {
        match self {
            LineView::Lent(line) => line,
            LineView::Made(line) => line,
        }
    }
}

impl SharedLine {
    /// A line that can be shared.
    pub fn new(alloc: Global, line: Line) -> Result<SharedLine, AllocError>
        ensures { IfOk result (λ shared. shared ≡ line) }
    {
        let line = Arc::new(alloc, line)?;
        Ok(SharedLine {
            kept: Kept::Shared(line),
            alloc,
        })
    }

    // The line of an incoming connection, for which an end was given out. It takes no memory.
    #[inline(always)]
    pub(crate) fn of_arrival(alloc: Global, entry: LineNumbers, link: u64, id: EndId) -> SharedLine
        ensures { result ≡ line_with entry (Event.Incoming link) (silent_reply id) }
    {
        SharedLine {
            kept: Kept::Came { entry, link, id },
            alloc,
        }
    }

    // The line of a loss. It takes no memory.
    #[inline(always)]
    pub(crate) fn of_loss(alloc: Global, entry: LineNumbers, id: EndId, why: Why) -> SharedLine
        ensures { result ≡ line_with entry (Event.Lost id why) (loss_reply id why) }
    {
        SharedLine {
            kept: Kept::Lost { entry, id, why },
            alloc,
        }
    }

    /// The line. It takes no memory.
    pub fn read(&self) -> LineView
        ensures { line_in result ≡ self.now }
    {
        match &self.kept {
            Kept::Shared(line) => LineView::Lent(line),
            Kept::Came { entry, link, id } => LineView::Made(entry.line(
                Event::Incoming { link: *link },
                quiet(self.alloc, *id, None),
            )),
            Kept::Lost { entry, id, why } => LineView::Made(entry.line(
                Event::Lost {
                    end_: *id,
                    why: *why,
                },
                quiet(self.alloc, *id, Some((*id, *why))),
            )),
        }
    }

    /// Its ticket.
    pub fn ticket(&self) -> u64
        ensures { result ≡ self.now.ticket }
    {
        match &self.kept {
            Kept::Shared(line) => line.ticket,
            Kept::Came { entry, .. } | Kept::Lost { entry, .. } => entry.ticket,
        }
    }

    /// The number of its seat.
    pub fn seat(&self) -> u32
        ensures { result ≡ self.now.seat }
    {
        match &self.kept {
            Kept::Shared(line) => line.seat,
            Kept::Came { entry, .. } | Kept::Lost { entry, .. } => entry.seat,
        }
    }

    /// The end that the reply names.
    pub fn end_(&self) -> EndId
        ensures { result ≡ (let r = self.now.reply in r.end_) }
    {
        match &self.kept {
            Kept::Shared(line) => line.reply.end_,
            Kept::Came { id, .. } | Kept::Lost { id, .. } => *id,
        }
    }

    /// What the step sent.
    pub fn say(&self) -> &[u8]
        ensures { result.now ≡ (let r = self.now.reply in r.say) }
    {
        match &self.kept {
            Kept::Shared(line) => line.reply.say.as_slice(),
            Kept::Came { .. } | Kept::Lost { .. } => &[],
        }
    }

    /// An equal line, which shares its memory with this one. It fails only where there are 2^63 of them.
    pub fn try_clone(&self) -> Result<SharedLine, AllocError>
        ensures { IfOk result (λ copy. copy ≡ self.now) }
    {
        let kept = match &self.kept {
            Kept::Shared(line) => Kept::Shared(Arc::try_clone(line)?),
            Kept::Came { entry, link, id } => Kept::Came {
                entry: *entry,
                link: *link,
                id: *id,
            },
            Kept::Lost { entry, id, why } => Kept::Lost {
                entry: *entry,
                id: *id,
                why: *why,
            },
        };
        Ok(SharedLine {
            kept,
            alloc: self.alloc,
        })
    }

    /// Whether the two lines are equal.
    pub fn is_same(&self, other: &SharedLine) -> bool
        ensures { IsTrue result ↔ (self.now ≡ other.now) }
    {
        let (ours, theirs) = (self.read(), other.read());
        ours.line().is_same(theirs.line())
    }
}

/// The reply of a step that sends nothing, and closes an end or none. It takes no memory.
#[inline(always)]
pub fn quiet(alloc: Global, id: EndId, closed: Option<(EndId, Why)>) -> Reply
    ensures { result ≡ record { end_ = id; say = []; closed = closed; up = None; note = Note.Nothing } }
{
    Reply {
        end_: id,
        say: ByteString::new(alloc),
        closed,
        up: None,
        note: Note::Nothing,
    }
}
