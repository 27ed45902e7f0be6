//! One client, what is to be done for it, and why one is not taken in.

use dist_names::ByteString;
use thiserror::Error;

/// Where a client's talk stands.
#[derive(Drop)]
pub enum Talk {
    /// It has not asked yet: what came of the frame of its request so far.
    Asking(ByteString),
    /// It got the answer that its node is registered under this name, and has sent nothing since.
    Registered(ByteString),
}

/// A client that is connected.
#[derive(Drop)]
pub struct Client<S> {
    /// What carries its bytes.
    pub stream: S,
    /// Whether it is on this host. A client of another host registers nothing.
    pub local: bool,
    /// When it came, in whatever unit the caller counts.
    pub since: u64,
    /// Where its talk stands.
    pub talk: Talk,
}

/// What is to be done for a client that sent something.
#[derive(Drop)]
pub enum Turn<S> {
    /// Nothing: its request goes on, or it is not here.
    Wait,
    /// Its node is registered. These bytes are to be sent, and it stays. Where they can't be sent whole, it is to be closed.
    Stay(ByteString),
    /// These bytes are to be sent, or none, and then its stream is to be closed. It has left already, and its registration
    /// with it, where it had one.
    Leave(S, ByteString),
}

/// Why a client is not taken in, the first reason in this order. Its stream is dropped, and nothing is changed.
#[derive(Clone, Copy, Debug, PartialEq, Eq, Error)]
pub enum OpenError {
    /// All numbers of connections were given: 18,446,744,073,709,551,615 clients came before.
    #[error("the numbers of connections are used up")]
    Numbers,
    /// No memory was left for it.
    #[error("out of memory")]
    NoMemory,
}
