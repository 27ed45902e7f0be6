//! Drives one end of a connection: carries bytes from a stream to the end's node, frame by frame, and back what the node
//! sends, until the end is closed or a limit is met.
//!
//! It knows no sockets, no threads and no clock: the stream, the desk at which frames are handed on, and the source of
//! challenges are traits. How long a call may go on is a number of turns, and a turn is one read or write, a quiet one
//! among them.
#![tactic(auto)]

mod desk;
mod draws;
mod driving;
mod handshaking;
mod memory;
mod opening;
mod outcome;
mod reached;

pub use desk::Desk;
pub use dist_epmd_calls::{
    LookupError, Mapper, Served, ask_names, lookup, register, serve_registry,
};
pub use dist_stream::{FaultStream, Heard, SocketStream, Stream, Took};
pub use draws::Draws;
pub use driving::drive;
pub use handshaking::handshake;
pub use memory::MemoryDesk;
pub use opening::opening_for;
pub use outcome::Outcome;
pub use reached::Reached;
