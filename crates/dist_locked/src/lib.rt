//! Nodes under locks, with the histories of their steps, and receipts for them: so that what several threads did to a node
//! is the history of one.
//!
//! A node stands under its lock with its book (`dist_locked_book`, whose paths stand here too): the lines of its steps, whose
//! replay from the opening node gives the node and each reply. Each caller has a seat, and each step gives the seat a
//! receipt. At the end `close` compares the receipts with the book. A lock is held for one step and no longer, and never
//! while anything is read or written.
//!
//! Beside it stands the queue of dial orders: one dispatcher puts numbers in, two workers take them out. What was put and
//! what each worker took is known to proofs alone, through the passes that come with a queue.
//!
//! It starts no thread and knows no socket. It promises no order between threads, no fairness, and not that waiting for a lock
//! ever returns.
#![tactic(auto)]

mod dispatching;
mod driven;
mod gate;
mod locked_node;
mod losing;
mod queue;
mod rule;
mod seat_desk;
mod shared;

pub use dispatching::{CAPACITY, LAST_ORDER, MOST_ORDERS, dispatch};
pub use dist_locked_book::{
    Book, CloseError, Closed, Line, LineView, Receipt, Seat, SharedLine, close, step_on,
};
pub use driven::{Driven, drive_end};
pub use gate::{Gate, Moment, Open};
pub use locked_node::{LockedNode, Tickets};
pub use losing::{lose, settle};
pub use queue::{Orders, PutPass, TakePass};
pub use rule::DialOrder;
pub use seat_desk::SeatDesk;
pub use shared::{LockedRegistry, SharedMapper};
