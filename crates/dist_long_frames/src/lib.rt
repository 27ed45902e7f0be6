//! A handshake over TLS: frames with lengths of 4 bytes, read and written as those with lengths of 2.
//!
//! Erlang's distribution over TLS puts a length of 4 bytes before each message of the handshake, where that over TCP puts one of 2. What
//! speaks a handshake over a stream speaks it over [`LongFrames`] of a stream just the same: the bodies are the same, in whatever pieces
//! they come. No TLS, no sockets and no memory: the stream is whatever carries the frames.
//!
//! In each direction the last frame of a handshake is the one whose body begins with `r` (the reply) or `a` (the acknowledgement). What
//! follows it has lengths of 4 bytes over TCP too, and passes unchanged.
//!
//! Source: Erlang/OTP, application `ssl`, `inet_tls_dist` (`{packet, 4}`); ERTS User's Guide, Distribution Handshake ("2-byte length").
#![tactic(auto)]

mod laws;
mod long_frames;
mod place;

pub use laws::same_bodies;
pub use long_frames::LongFrames;
