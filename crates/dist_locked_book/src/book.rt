ghost use Rattle.std.specs.Prelude.{◌≡◌, ◌≢◌, ◌<◌, ◌+◌, ◌≤◌, ◌∷◌, [], ◌++◌, length, vec_len, vec_capacity, true, false, MatchBool, IsTrue};
ghost use Rattle.std.specs.Prelude.{Ok, Err, IfOk, IfErr, OnOk, OnErr, IsOk, Some, None, slice_get};
ghost use Rattle.dist_core_ends.specs.{declared.known.End.End, Ends.is_open};
ghost use Rattle.dist_core.specs.{Losses.is_loss, Losses.IsGone, Runs.opening, Step.step, Answers.Refuses, Clauses.loss_reply, Clauses.silent_reply};
ghost use Rattle.dist_core.specs.declared.event.Event.TheVariants as Event;
ghost use Rattle.dist_locked_book.specs.{History.IsAnswered, History.IsLegal, History.IsReplay, History.ends_in_loss, Sharing.AreLines};

use super::seat::{Receipt, Seat};
use super::shared_line::{LineNumbers, SharedLine, quiet};
use super::sharing::{LineCopies, Sharing};
use dist_core::{Event, Node, Reply, Setup, StepError, Why};
use dist_core_laws::{a_step_keeps, open_ends_after_a_step};
use dist_peers::EndId;
use std::alloc::{AllocError, Global};
use std::marker::Model;

/// A node with the history of its steps. Contracts see its node, how many seats it has, and the history.
///
/// The history has only steps that succeeded, so that their replay from the opening node of the setup gives the node and each
/// reply. There is room for one line for each open end: so the loss of any of them takes no memory.
#[derive(Drop)]
pub struct Book {
    node: Node,
    seats: u32,
    history: Vec<SharedLine>,
}

impl Model for Book {
    ghost use Rattle.std.specs.Prelude.{◌≡◌, ◌+◌, ◌≤◌, vec_len, vec_capacity};
    ghost use Rattle.dist_core.specs.Runs.{opening};
    ghost use Rattle.dist_locked_book.specs.Opens.{open_count};
    ghost use Rattle.dist_locked_book.specs.History.{BookState, IsReplay};

    ghost Value = { BookState };

    ghost view = { λ b. record { node = b.node; seats = b.seats; history = b.history.items } };

    ghost invariant = { λ b. IsReplay (opening b.node.setup) b.history.items b.node × (vec_len b.history + open_count b.node ≤ vec_capacity b.history) };
}

impl Book {
    /// The opening node of a setup, without a line. It takes no memory.
    pub fn new(alloc: Global, setup: Setup, seats: u32) -> Book
        ensures { (result.node ≡ opening setup) × (result.seats ≡ seats) × (result.history ≡ []) }
    {
        Book {
            node: Node::new(alloc, setup),
            seats,
            history: Vec::new(alloc),
        }
    }

    /// The node as it is now.
    pub fn node(&self) -> &Node
        ensures node { result.now ≡ self.now.node }
        ensures legal { IsLegal self.now }
    {
        &self.node
    }

    /// How many seats it has.
    pub fn seats(&self) -> u32
        ensures { result ≡ self.now.seats }
    {
        self.seats
    }

    /// The steps that succeeded, in order.
    pub fn history(&self) -> &[SharedLine]
        ensures history { result.now ≡ self.now.history }
        ensures legal { IsLegal self.now }
    {
        &self.history
    }

    /// The node and the history, which is legal.
    pub fn into_parts(self) -> (Node, Vec<SharedLine>)
        ensures parts { (result.0 ≡ self.node) × (result.1.items ≡ self.history) }
        ensures legal { IsReplay (opening result.0.setup) result.1.items result.0 }
    {
        let Book { node, history, .. } = self;
        (node, history)
    }
}

// Makes room for the line of a step, and for one line for each end that is open then. Before a loss there is room already.
fn make_room(history: &mut Vec<SharedLine>, open_ends: usize, lost: bool) -> Result<(), StepError>
    requires { vec_len history.old + open_ends ≤ vec_capacity history.old }
    ensures same { (history.new.items ≡ history.old.items) × (vec_len history.new ≡ vec_len history.old) }
    ensures kept { vec_len history.new + open_ends ≤ vec_capacity history.new }
    ensures room { OnOk result (lost ≡ false → vec_len history.new + open_ends + 2 ≤ vec_capacity history.new) }
    ensures err { IfErr result (λ e. e ≡ StepError.NoMemory) }
    ensures lost { lost ≡ true → IsOk result }
{
    if lost {
        return Ok(());
    }
    let Some(more) = open_ends.checked_add(2) else {
        return Err(StepError::NoMemory);
    };
    history.reserve(more).map_err(|_| StepError::NoMemory)
}

/// Makes a step of the book's node for a seat, and adds its line to the history and its receipt to the seat. It returns the
/// receipt with a copy of the reply, for whoever hands that on.
///
/// It is refused as the node refuses the step, out of memory last; a refusal changes neither the book nor the seat's
/// receipts. A loss of an open end succeeds where the seat's last receipt is not of a loss: it takes no memory. Source: our own
/// choice.
pub fn step_on(
    alloc: Global,
    book: &mut Book,
    seat: &mut Seat,
    ticket: u64,
    event: &Event,
    fresh: u32,
) -> Result<(Receipt, Reply), StepError>
    ensures step { IfOk result (λ r. step book.old.node event.now fresh ≡ Ok (r.1, book.new.node)) }
    ensures reply { IfOk result (λ r. r.1 ≡ r.0.line.reply) }
    ensures line { IfOk result (λ r. (r.0.line.ticket ≡ ticket) × (r.0.line.seat ≡ seat.old.number) × (r.0.line.event ≡ event.now) × (r.0.line.fresh ≡ fresh)) }
    ensures history { IfOk result (λ r. (r.0.at_ ≡ length book.old.history) × (book.new.history ≡ book.old.history ++ r.0.line ∷ [])) }
    ensures receipt { IfOk result (λ r. seat.new.list ≡ seat.old.list ++ r.0 ∷ []) }
    ensures seats { (book.new.seats ≡ book.old.seats) × (seat.new.number ≡ seat.old.number) }
    ensures legal { IsLegal book.old }
    ensures answered { IfOk result (λ r. IsAnswered r.0) }

    // A refusal is that of the node, and changes neither the book nor the seat's list.
    ensures refused { IfErr result (λ e. Refuses e (step book.old.node event.now fresh)) }
    ensures err { OnErr result ((book.new ≡ book.old) × (seat.new.list ≡ seat.old.list)) }

    // A loss takes no memory where the seat has room, as it has after a receipt that is not of a loss.
    ensures gone { IsTrue (is_loss event.now) → 0 < seat.old.spare → IfErr result IsGone }
    ensures open_end { (x : EndId) (w : Why) (e : End) → event.now ≡ Event.Lost x w
        → slice_get book.old.node.ends x.0 ≡ Some e → is_open e ≡ true → ends_in_loss seat.old.list ≡ false → IsOk result }
    ensures room { OnOk result (is_loss event.now ≡ false → 0 < seat.new.spare) }
    ensures room_kept { OnErr result (seat.old.spare ≤ seat.new.spare) }
{
    a_step_keeps();
    open_ends_after_a_step();
    let lost = event.is_lost();
    let Ok(()) = seat.make_room(lost) else {
        return Err(book.node.refusal_without_memory(alloc, event, fresh));
    };
    let open_ends = book.node.open_ends();
    let Ok(()) = make_room(&mut book.history, open_ends, lost) else {
        return Err(book.node.refusal_without_memory(alloc, event, fresh));
    };
    let entry = LineNumbers {
        ticket,
        seat: seat.number(),
        fresh,
    };
    let LineCopies {
        line,
        second,
        third,
        reply,
    } = make_step(alloc, &mut book.node, entry, event)?;
    let at_ = book.history.len();
    book.history.push_reserved(third);
    seat.keep(Receipt { at_, line: second });
    Ok((Receipt { at_, line }, reply))
}

// Makes a step of a node. The lines of an incoming connection and of a loss take no memory; any other line is
// made before the step is.
#[inline(always)]
fn make_step(
    alloc: Global,
    node: &mut Node,
    entry: LineNumbers,
    event: &Event,
) -> Result<LineCopies, StepError>
    ensures step { IfOk result (λ r. step node.old event.now entry.fresh ≡ Ok (r.reply, node.new)) }
    ensures lines { IfOk result (λ r. AreLines entry event.now r.reply r) }
    ensures refused { IfErr result (λ e. Refuses e (step node.old event.now entry.fresh)) }
    ensures err { OnErr result (node.new ≡ node.old) }
    ensures gone { IsTrue (is_loss event.now) → IfErr result IsGone }
    ensures open_end { (x : EndId) (w : Why) (e : End) → event.now ≡ Event.Lost x w
        → slice_get node.old.ends x.0 ≡ Some e → is_open e ≡ true → IsOk result }
{
    match event {
        Event::Incoming { link } => {
            let id = node.accept()?;
            Ok(lines_of_arrival(alloc, entry, *link, id))
        }
        Event::Lost { end_: id, why } => {
            node.lose(*id, *why)?;
            Ok(lines_of_loss(alloc, entry, *id, *why))
        }
        _ => node.step_kept(alloc, &Sharing { entry, event }, event, entry.fresh),
    }
}

#[inline(always)]
fn lines_of_arrival(alloc: Global, entry: LineNumbers, link: u64, id: EndId) -> LineCopies
    ensures { AreLines entry (Event.Incoming link) (silent_reply id) result }
{
    LineCopies {
        line: SharedLine::of_arrival(alloc, entry, link, id),
        second: SharedLine::of_arrival(alloc, entry, link, id),
        third: SharedLine::of_arrival(alloc, entry, link, id),
        reply: quiet(alloc, id, None),
    }
}

#[inline(always)]
fn lines_of_loss(alloc: Global, entry: LineNumbers, id: EndId, why: Why) -> LineCopies
    ensures { AreLines entry (Event.Lost id why) (loss_reply id why) result }
{
    LineCopies {
        line: SharedLine::of_loss(alloc, entry, id, why),
        second: SharedLine::of_loss(alloc, entry, id, why),
        third: SharedLine::of_loss(alloc, entry, id, why),
        reply: quiet(alloc, id, Some((id, why))),
    }
}
