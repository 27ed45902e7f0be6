ghost use Rattle.std.specs.Prelude.{◌≡◌, ◌↔◌, ◌<◌, ◌==◌, ℕ, All, count_by, Ok, Err, IfOk, IfErr, OnOk, IsTrue};
ghost use Rattle.dist_core.specs.Runs.{opening};
ghost use Rattle.dist_locked_book.specs.{History.IsReplay, Closing.AreAll, Closing.AreKept, Closing.receipts_of};

use super::book::Book;
use super::seat::Seat;
use super::shared_line::SharedLine;
use dist_core::Node;
use thiserror::Error;

/// Why a book is not closed. The first that holds is returned.
#[derive(Error, Clone, Copy, Debug, Drop, PartialEq, Eq)]
pub enum CloseError {
    /// The seats are not those of all numbers, each once.
    #[error("a seat is missing, or there twice")]
    MissingSeat,
    /// A seat's receipts are not the history's lines of its number at their places, or a line has another seat's number. Also
    /// where a seat is of another node.
    #[error("a receipt is absent")]
    ReceiptAbsent,
}

/// A node with its whole history.
#[derive(Drop)]
pub struct Closed {
    /// The node, to which the history leads from the opening node of its setup.
    pub node: Node,
    /// Its steps that succeeded, in order.
    pub history: Vec<SharedLine>,
}

/// The node and its history, where all seats are there, each with exactly the receipts of its lines. Otherwise the book and the
/// seats are returned: MissingSeat comes before ReceiptAbsent. It takes no memory. Source: our own choice.
pub fn close(book: Book, seats: Vec<Seat>) -> Result<Closed, (CloseError, Book, Vec<Seat>)>
    ensures closed { IfOk result (λ c. (c.node ≡ book.node) × (c.history.items ≡ book.history)) }
    ensures legal { IfOk result (λ c. IsReplay (opening c.node.setup) c.history.items c.node) }
    ensures seats { OnOk result (AreAll book.seats seats.items × AreKept book.seats book.history seats.items) }

    // The book and the seats are returned. A missing seat comes before an absent receipt.
    ensures back { IfErr result (λ e. (e.1 ≡ book) × (e.2.items ≡ seats.items)) }
    ensures missing { IfErr result (λ e. e.0 ≡ CloseError.MissingSeat → ¬ AreAll book.seats seats.items) }
    ensures absent { IfErr result (λ e. e.0 ≡ CloseError.ReceiptAbsent → AreAll book.seats seats.items × ¬ AreKept book.seats book.history seats.items) }
{
    if !are_all(book.seats(), seats.as_slice()) {
        return Err((CloseError::MissingSeat, book, seats));
    }
    if !are_kept(book.seats(), book.history(), seats.as_slice()) {
        return Err((CloseError::ReceiptAbsent, book, seats));
    }
    let (node, history) = book.into_parts();
    Ok(Closed { node, history })
}

// Whether the seats have the numbers below n, each once.
fn are_all(n: u32, seats: &[Seat]) -> bool
    ensures { IsTrue result ↔ AreAll n seats.now }
{
    are_numbered(n, seats) && are_once(n, seats)
}

fn are_numbered(n: u32, seats: &[Seat]) -> bool
    ensures { IsTrue result ↔ All (λ s. s.number < n) seats.now }
{
    seats.iter().all(|seat| seat.number() < n)
}

fn are_once(n: u32, seats: &[Seat]) -> bool
    ensures { IsTrue result ↔ ((k : ℕ) → k < n → count_by (λ s. s.number == k) seats.now ≡ 1) }
{
    for number in 0..n {
        if count_of(number, seats) != 1 {
            return false;
        }
    }
    true
}

fn count_of(number: u32, seats: &[Seat]) -> usize
    ensures { result ≡ count_by (λ s. s.number == number) seats.now }
{
    seats.iter().filter(|seat| seat.number() == number).count()
}

// Whether each line is of a seat number below n, and each seat has exactly the receipts of its lines.
fn are_kept(n: u32, history: &[SharedLine], seats: &[Seat]) -> bool
    ensures { IsTrue result ↔ AreKept n history.now seats.now }
{
    history.iter().all(|line| line.seat() < n) && seats.iter().all(|seat| is_kept(history, seat))
}

// Whether the seat has exactly the receipts of its lines.
fn is_kept(history: &[SharedLine], seat: &Seat) -> bool
    ensures { IsTrue result ↔ (seat.now.list ≡ receipts_of seat.now.number 0 history.now) }
{
    let list = seat.receipts();
    let mut next = 0;
    for (place, line) in history.iter().enumerate() {
        if line.seat() == seat.number() {
            let Some(receipt) = list.get(next) else {
                return false;
            };
            if receipt.at_ != place || !receipt.line.is_same(line) {
                return false;
            }
            next += 1;
        }
    }
    next == list.len()
}
