//! Streams: bytes that come and go over a connection, and reads and writes that count their turns.
//!
//! A stream is a trait, so what is built on it runs over a socket and over memory alike. No sleep and no threads: how
//! long a call may go on is a number of turns, and a turn is one read or write, a quiet one among them. Where the clock is to
//! decide, `DeadlineStream` is quiet from a deadline on, and the turns that are left pass at once; only this type reads a clock.
//! Only `connect` and `connect_by` ask the system for a connection; nothing here accepts one.
#![tactic(auto)]

mod deadline;
mod dialling;
mod faults;
mod marks;
mod socket;
mod stream;
mod turn_error;
mod turns;

pub use deadline::{AMPLE_TURNS, DeadlineStream, connect_by, deadline_after, time_left};
pub use dialling::connect;
pub use faults::FaultStream;
pub use socket::SocketStream;
pub use stream::{Heard, Stream, Took};
pub use turn_error::TurnError;
pub use turns::Limited;
