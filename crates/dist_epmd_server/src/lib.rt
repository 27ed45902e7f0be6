//! Serves the clients of a port mapper at sockets, all of them at once on one thread: readiness is waited for, and what
//! is ready is read, given to the clients' table, answered and closed.
//!
//! No client is waited for. One that sends nothing is closed after a time, or earlier where its place is needed. What moves
//! bytes is generic over the stream; sockets stand in `server`, `newest`, `waiting` and `serving`
//! alone.
#![tactic(auto)]

mod attending;
mod newest;
mod owed;
mod owing;
mod places;
mod server;
mod serving;
mod turns;
mod waiting;

pub use attending::attend;
pub use owed::{Owed, Said, say};
pub use owing::Owing;
pub use server::{MapperLimits, Server, other_of};
pub use serving::{EVENTS, ROOM, serve, serve_ready};
pub use turns::{ReadStep, read_all};
