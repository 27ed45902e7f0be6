//! What a connection carries, in whatever pieces it comes: the frames of the handshake, and then the packets between two connected
//! nodes, with the times of their ticks.
//!
//! No sockets, no clock, no messages: bytes go in, bodies and packets come out. A connection begins with short frames, each a body
//! behind its length in 2 bytes, and goes on with packets, each behind its length in 4 bytes, once the two nodes are connected. A
//! packet of no bytes is a tick. [`Frames`] moves the bodies out, and then skips the packets unread and only counts them.
//! [`Packets`] moves the packets out: its caller says how long one may be, a longer one is refused as soon as its length has come,
//! and no memory is taken for bytes that did not come.
//!
//! Whoever carries a link reports the time, in milliseconds of any clock that does not go back, and when something was
//! read or written ([`Ticker`]). A node that wrote nothing for a quarter of the time of a tick writes a tick; a peer from which
//! nothing was read for the whole of that time is given up.
//!
//! Source: ERTS User's Guide, Distribution Protocol, Distribution Handshake ("2-byte length") and Protocol between
//! Connected Nodes ("4-byte length"). Erlang/OTP, application `kernel`: `net_ticktime`, and `net_tickintensity` with its usual
//! value of 4. There a link is looked at once a quarter, so that a silent peer is given up as much as a quarter earlier or later;
//! here at the millisecond.
#![tactic(auto)]

mod byte_queue;
mod frame_error;
mod frames;
mod laws;
mod link_laws;
mod packet_error;
mod packet_reader;
mod packet_writing;
mod partial;
mod short;
mod short_queue;
mod ticker;

pub use byte_queue::ByteQueue;
pub use frame_error::FrameError;
pub use frames::Frames;
pub use laws::{
    any_pieces, bodies_of_stream, fed_and_moved, frame_in_front, one_frame, packets_of_stream,
};
pub use link_laws::{
    a_silent_peer_is_given_up, a_tick_is_due_in_time, nothing_is_due_before, packets_in_any_pieces,
};
pub use packet_error::PacketError;
pub use packet_reader::Packets;
pub use packet_writing::{header, write_packet};
pub use partial::tick;
pub use short::{first_body, write_short};
pub use ticker::{Due, Ticker};
