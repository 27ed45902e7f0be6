ghost use Rattle.std.specs.Prelude.{◌≡◌, ◌<◌, ◌+◌, ◌≤◌, ◌∷◌, [], ◌++◌, vec_len, true, false, IfOk, OnOk, OnErr, IsOk, MatchBool};
ghost use Rattle.dist_core.specs.Losses.{is_loss};
ghost use Rattle.dist_locked_book.specs.History.{AreFresh, ends_in_loss};

use super::shared_line::SharedLine;
use std::alloc::{AllocError, Global};
use std::marker::Model;

/// What a seat keeps of each of its steps.
#[derive(Drop)]
pub struct Receipt {
    /// The place of the step's line in the history, counted from 0.
    pub at_: usize,
    /// That line.
    pub line: SharedLine,
}

/// One caller's place at a node, with the receipts of its steps in order. A node's seats are made by `fresh_seats`, and
/// `close` needs all of them back. There is room for one more receipt, unless the last one is of a loss: so a loss
/// takes no memory.
#[derive(Drop)]
pub struct Seat {
    number: u32,
    receipts: Vec<Receipt>,
}

impl Model for Seat {
    ghost use Rattle.std.specs.Prelude.{◌≡◌, ◌<◌, ◌-◌, ◌≤◌, false, vec_len, vec_capacity};
    ghost use Rattle.dist_locked_book.specs.History.{SeatState, ends_in_loss};

    ghost Value = { SeatState };

    ghost view = { λ s. record { number = s.number; list = s.receipts.items; spare = vec_capacity s.receipts - vec_len s.receipts } };

    ghost invariant = { λ s. ends_in_loss s.receipts.items ≡ false → vec_len s.receipts < vec_capacity s.receipts };
}

impl Seat {
    /// Its number, from 0 to one below the count of the node's seats.
    pub fn number(&self) -> u32
        ensures { result ≡ self.now.number }
    {
        self.number
    }

    /// The receipts of its steps, in order.
    pub fn receipts(&self) -> &[Receipt]
        ensures list { result.now ≡ self.now.list }
        ensures room { ends_in_loss self.now.list ≡ false → 0 < self.now.spare }
    {
        &self.receipts
    }

    /// Makes room for the receipt of a step, and, where the step is not of a loss, for one more. It changes nothing else. For
    /// a loss it takes no memory where there is room for one receipt. An error means that memory ran out; the room that there was
    /// is still there then. Source: our own choice.
    pub fn make_room(&mut self, lost: bool) -> Result<(), AllocError>
        ensures same { (self.new.number ≡ self.old.number) × (self.new.list ≡ self.old.list) × (self.old.spare ≤ self.new.spare) }
        ensures room { OnOk result (MatchBool lost (0 < self.new.spare) (1 < self.new.spare)) }
        ensures lost { lost ≡ true → 0 < self.old.spare → IsOk result }
        ensures had_room { ends_in_loss self.old.list ≡ false → 0 < self.old.spare }
    {
        self.receipts.reserve(if lost { 1 } else { 2 })
    }

    // Adds a receipt, for which there is room.
    pub(crate) fn keep(&mut self, receipt: Receipt)
        requires { MatchBool (is_loss receipt.line.event) (0 < self.old.spare) (1 < self.old.spare) }
        ensures { (self.new.number ≡ self.old.number) × (self.new.list ≡ self.old.list ++ receipt ∷ []) × (self.new.spare + 1 ≡ self.old.spare) }
    {
        self.receipts.push_reserved(receipt);
    }
}

/// The seats of a node that is to have this many, in the order of their numbers, each with no receipt and room for one.
pub fn fresh_seats(alloc: Global, count: u32) -> Result<Vec<Seat>, AllocError>
    ensures count { IfOk result (λ seats. vec_len seats ≡ count) }
    ensures fresh { IfOk result (λ seats. AreFresh seats.items) }
{
    let mut all = Vec::new(alloc);
    for number in 0..count {
        let receipts = Vec::with_capacity(alloc, 1)?;
        all.push(Seat { number, receipts })?;
    }
    Ok(all)
}
