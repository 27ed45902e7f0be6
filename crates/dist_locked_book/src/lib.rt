//! A node with the history of its steps, and receipts for them: so that what each caller did can be compared with what
//! happened to the node.
//!
//! A book has the lines of all steps that succeeded, and their replay from the opening node of the setup gives the node and
//! each reply. Each caller has a seat, and each step gives the seat a receipt. At the end `close` compares the receipts with
//! the book.
//!
//! It knows no lock, no thread and no socket, and draws no tickets: whoever hands tickets in sees to it that they rise.
#![tactic(auto)]

mod book;
mod closing;
mod line;
mod seat;
mod shared_line;
mod sharing;

pub use book::{Book, step_on};
pub use closing::{CloseError, Closed, close};
pub use line::Line;
pub use seat::{Receipt, Seat, fresh_seats};
pub use shared_line::{LineView, SharedLine};
