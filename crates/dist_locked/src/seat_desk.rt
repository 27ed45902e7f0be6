ghost use Rattle.std.specs.Prelude.{◌≡◌, ◌≢◌, ◌<◌, ◌≤◌, ℕ, List, ◌∷◌, [], ◌++◌, length, ◌+◌, map, IsTrue};
ghost use Rattle.std.specs.Prelude.{vec_len, vec_capacity, false, Some, None, Ok, Err, IfOk, IfErr, OnOk, OnErr, option_copied};
ghost use Rattle.dist_core.specs.Losses.{is_loss, IsGone};
ghost use Rattle.dist_core.specs.{declared.event.Event.Event, declared.reply.Reply.Reply, Clauses.end_of, declared.step_error.StepError.StepError};
ghost use Rattle.dist_locked_book.specs.declared.seat.Receipt.{Receipt};
ghost use Rattle.dist_drive.specs.Desks.{last_reply};
ghost use Rattle.dist_locked.specs.Desks.{entry_of, causes, seat_facts};

use super::locked_node::LockedNode;
use dist_core::{Event, Reply, StepError, Still, Why};
use dist_drive::Desk;
use dist_locked_book::{Receipt, Seat};
use dist_peers::EndId;
use std::alloc::{AllocError, Global};
use std::collections::LinkedList;
use std::marker::Model;
use std::sync::Wait;

/// The desk of one end of a node under a lock, for the driver: each of its steps is one locked step of its seat.
#[derive(Drop)]
pub struct SeatDesk<'a, R: Wait> {
    rt: &'a R,
    node: &'a LockedNode,
    end_: EndId,
    seat: Seat,
    before: usize,
    steps: Vec<(Event, u32, Reply)>,
    lost: Option<Why>,
}

impl<'a, R: Wait> Model for SeatDesk<'a, R> {
    ghost use Rattle.std.specs.Prelude.{◌≡◌, ◌<◌, ◌≤◌, take, drop, map, None, vec_len, vec_capacity, length};
    ghost use Rattle.dist_locked.specs.Desks.{DeskState, entry_of, last_loss};

    ghost Value = { DeskState };

    ghost view = { λ d. record { end_ = d.end_; number = d.seat.number; start = take d.before d.seat.list; list = d.steps.items } };

    ghost invariant = { λ d. (d.before ≤ length d.seat.list) × (map entry_of (drop d.before d.seat.list) ≡ d.steps.items)
        × (d.lost ≡ None → vec_len d.steps < vec_capacity d.steps) × (d.lost ≡ None → 0 < d.seat.spare) × (d.lost ≡ last_loss d.steps.items) };
}

impl<'a, R: Wait> SeatDesk<'a, R> {
    /// A desk of one end, with room for one step. Where memory runs out, the seat comes back.
    pub fn new(
        rt: &'a R,
        alloc: Global,
        node: &'a LockedNode,
        seat: Seat,
        end_: EndId,
    ) -> Result<SeatDesk<'a, R>, (AllocError, Seat)>
        ensures desk { IfOk result (λ d. (d.end_ ≡ end_) × (d.number ≡ seat.number) × (d.start ≡ seat.list) × (d.list ≡ [])) }
        ensures err { IfErr result (λ e. (e.1.number ≡ seat.number) × (e.1.list ≡ seat.list)) }
    {
        let mut seat = seat;
        let steps = match Vec::with_capacity(alloc, 1) {
            Ok(steps) => steps,
            Err(e) => return Err((e, seat)),
        };
        if let Err(e) = seat.make_room(true) {
            return Err((e, seat));
        }
        let before = seat.receipts().len();
        Ok(SeatDesk {
            rt,
            node,
            end_,
            seat,
            before,
            steps,
            lost: None,
        })
    }

    /// The seat, which has a receipt for each step of the desk behind those that it began with, and the steps.
    pub fn into_parts(self) -> (Seat, Vec<(Event, u32, Reply)>)
        ensures number { result.0.number ≡ self.entry.number }
        ensures receipts { (kept : List Receipt) × (result.0.list ≡ self.entry.start ++ kept) × (map entry_of kept ≡ self.entry.list) }
        ensures steps { result.1.items ≡ self.entry.list }
    {
        let SeatDesk { seat, steps, .. } = self;
        (seat, steps)
    }

    // Hands an event on, with the number that was drawn for it.
    fn make_step(&mut self, event: Event, fresh: u32) -> Result<(), StepError>
        ensures ok { OnOk result ((reply : Reply) × (self.new.list ≡ self.old.list ++ (event, fresh, reply) ∷ [])) }
        ensures err { OnErr result (self.new ≡ self.old) }
        ensures refused { IfErr result (causes self.old event fresh) }
        ensures loss { IsTrue (is_loss event) → IfErr result IsGone }
        ensures other { end_of event ≢ Some self.old.end_ → result ≡ Err StepError.NoSuchEnd }
        ensures same { (self.new.number ≡ self.old.number) × (self.new.start ≡ self.old.start) × (self.new.end_ ≡ self.old.end_) }
    {
        if event.end_named() != Some(self.end_) {
            return Err(StepError::NoSuchEnd);
        }
        if let Some(why) = self.lost {
            return Err(StepError::Gone(why));
        }
        let Ok(()) = make_room(&mut self.steps, event.is_lost()) else {
            return Err(self.node.refusal_without_memory(self.rt, &event, fresh));
        };
        let (_, reply) = self.node.step(self.rt, &mut self.seat, &event, fresh)?;
        self.lost = event.lost_why();
        self.steps.push_reserved((event, fresh, reply));
        Ok(())
    }
}

impl<'a, R: Wait> Desk for SeatDesk<'a, R> {
    type Base = (u32, LinkedList<Receipt>);

    ghost base = { λ d. (d.number, d.start) };

    ghost serves = { λ d. d.end_ };

    ghost facts = { seat_facts };

    fn step(&mut self, event: Event, fresh: u32) -> Result<(), StepError> {
        self.make_step(event, fresh)
    }

    fn last(&self) -> Option<&Reply> {
        match self.steps.as_slice().last() {
            Some(step) => Some(&step.2),
            None => None,
        }
    }

    fn still(&self, end_: EndId) -> Still {
        self.node.still(self.rt, end_)
    }
}

// Makes room for a step and one more. Before a loss there is room already.
fn make_room(steps: &mut Vec<(Event, u32, Reply)>, lost: bool) -> Result<(), AllocError>
    requires { vec_len steps.old < vec_capacity steps.old }
    ensures same { (steps.new.items ≡ steps.old.items) × (vec_len steps.new ≡ vec_len steps.old) }
    ensures kept { vec_len steps.new < vec_capacity steps.new }
    ensures room { OnOk result (lost ≡ false → vec_len steps.new + 1 < vec_capacity steps.new) }
    ensures err { OnErr result (lost ≡ false) }
{
    if lost {
        return Ok(());
    }
    steps.reserve(2)
}
