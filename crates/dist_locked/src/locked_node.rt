ghost use Rattle.std.specs.Prelude.{◌≡◌, ◌≢◌, ◌<◌, ◌≤◌, ◌∷◌, [], ◌++◌, vec_len, false, Ok, Err, IfOk, IfErr, OnOk, OnErr, IsTrue};
ghost use Rattle.dist_core.specs.Losses.{is_loss, IsGone};
ghost use Rattle.dist_locked_book.specs.History.{AreFresh, IsAnswered, IsLegal, IsRefused};
ghost use Rattle.dist_locked.specs.Desks.{IsStill};

use dist_core::{Event, Reply, Setup, StepError, Still};
use dist_locked_book::{Book, Receipt, Seat, fresh_seats, step_on};
use dist_peers::EndId;
use std::alloc::{AllocError, Global};
use std::sync::atomic::{AtomicU64, Ordering};
use std::sync::{Arc, Mutex, Wait};

/// Numbers for the steps of all nodes: a line's ticket is drawn while its node's lock is held, so that tickets rise along a
/// history. They begin again at 0 after 2^64 draws.
#[derive(Drop)]
pub struct Tickets {
    next: AtomicU64,
}

impl Tickets {
    /// Tickets from 0 on.
    pub fn new() -> Tickets {
        Tickets {
            next: AtomicU64::new(0),
        }
    }
}

/// A node under a lock, with its book. Whenever the lock is held, the book's history is one that a single thread could have
/// made.
#[derive(Drop)]
pub struct LockedNode {
    book: Mutex<Book>,
    tickets: Arc<Tickets, Global>,
    alloc: Global,
}

impl LockedNode {
    /// The opening node of a setup under a lock, with the seats that it has, in the order of their numbers. Where memory runs
    /// out, the setup is dropped.
    pub fn new(
        alloc: Global,
        setup: Setup,
        tickets: Arc<Tickets, Global>,
        seats: u32,
    ) -> Result<(LockedNode, Vec<Seat>), AllocError>
        // from 1 to 64 seats: the caller says how many, as a constant or after a check
        requires { (0 < seats) × (seats ≤ 64) }
        ensures count { IfOk result (λ r. vec_len r.1 ≡ seats) }
        ensures seats { IfOk result (λ r. AreFresh r.1.items) }
    {
        let all = fresh_seats(alloc, seats)?;
        let book = Mutex::new(Book::new(alloc, setup, seats));
        Ok((
            LockedNode {
                book,
                tickets,
                alloc,
            },
            all,
        ))
    }

    /// Makes a step under the lock, with a ticket that is drawn there. What the node was at that moment no clause of a caller
    /// can say: only that some node with a legal history gives this reply, or refuses so. `close` compares. With the receipt comes
    /// a copy of the reply, for whoever hands it on: the line itself is shared with the history and the seat.
    ///
    /// It is refused as the node refuses the step, out of memory last, also where there is none for the copy, and changes nothing
    /// then. A loss takes no memory. Source: our own choice.
    pub fn step<R: Wait>(
        &self,
        rt: &R,
        seat: &mut Seat,
        event: &Event,
        fresh: u32,
    ) -> Result<(Receipt, Reply), StepError>
        ensures reply { IfOk result (λ r. r.1 ≡ r.0.line.reply) }
        ensures line { IfOk result (λ r. (r.0.line.seat ≡ seat.old.number) × (r.0.line.event ≡ event.now) × (r.0.line.fresh ≡ fresh)) }
        ensures receipt { IfOk result (λ r. seat.new.list ≡ seat.old.list ++ r.0 ∷ []) }
        ensures err { OnErr result (seat.new.list ≡ seat.old.list) }
        ensures seat { seat.new.number ≡ seat.old.number }
        ensures gone { IsTrue (is_loss event.now) → 0 < seat.old.spare → IfErr result IsGone }
        ensures room { OnOk result (is_loss event.now ≡ false → 0 < seat.new.spare) }
        ensures room_kept { OnErr result (seat.old.spare ≤ seat.new.spare) }

        // Some node with a legal history gives this reply, or refuses so.
        ensures answered { IfOk result (λ r. IsAnswered r.0) }
        ensures refused { IfErr result (IsRefused event.now fresh) }
    {
        let mut book = self.book.lock(rt);
        let ticket = self.tickets.next.fetch_add(1, Ordering::SeqCst);
        step_on(self.alloc, &mut book, seat, ticket, event, fresh)
    }

    // Why a step is refused for which there is no memory.
    pub(crate) fn refusal_without_memory<R: Wait>(
        &self,
        rt: &R,
        event: &Event,
        fresh: u32,
    ) -> StepError
        ensures { IsRefused event.now fresh result }
    {
        let book = self.book.lock(rt);
        book.node().refusal_without_memory(self.alloc, event, fresh)
    }

    /// How an end stands at this moment, as some node with a legal history reports it.
    pub fn still<R: Wait>(&self, rt: &R, end_: EndId) -> Still
        ensures { IsStill end_ result }
    {
        let book = self.book.lock(rt);
        book.node().still(end_)
    }

    /// The book, whose history is legal.
    pub fn into_book(self) -> Book
        ensures { IsLegal result }
    {
        let book = self.book.into_inner();
        // that shows what the book keeps
        let _lines = book.history().len();
        book
    }
}
