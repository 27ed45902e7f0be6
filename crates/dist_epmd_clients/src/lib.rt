//! The clients of a port mapper, as values: which are connected, what each has sent of its request, and which keep a node
//! registered (ERTS User's Guide, Distribution Protocol, EPMD Protocol). Bytes that came go in, and bytes to be sent come out.
//!
//! It opens no socket, and it knows no clock: the carrier of a connection is any type, held here as long as the connection
//! stands, and a time is a number that the caller gives.
#![tactic(auto)]

mod carrying;
mod client;
mod clients;
mod counts;
mod event;
mod front;
mod holding;
mod journal;
mod laws;
mod question;
mod replying;
mod reporting;
mod sweeping;

pub use client::{Client, OpenError, Talk, Turn};
pub use counts::Counts;
pub use event::ClientEvent;
pub use holding::Clients;
pub use laws::{a_frame_asks_once, a_front_asks, any_pieces};
pub use question::Question;
