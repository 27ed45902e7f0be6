//! What is held of all clients.

ghost use Rattle.dist_epmd_clients.specs.Standing.{Stand, NumbersBelow};

use crate::client::Client;
use crate::journal::Journal;
use dist_epmd::Registry;
use std::collections::BTreeMap;

/// The clients that are connected to a port mapper, each with what carries its bytes, and the registry of their nodes.
///
/// A registration stands exactly while the client that made it is here: it is made when the client gets the answer, and goes with
/// it, for whatever cause. A journal has what happened. Each connection has a number that no other had. Nothing here waits, reads or writes.
#[derive(Drop)]
pub struct Clients<S> {
    pub(crate) registry: Registry,
    pub(crate) next: u64,
    pub(crate) clients: BTreeMap<u64, Client<S>>,
    pub(crate) journal: Journal,
    ghost stand: { Stand registry clients },
    ghost numbered: { NumbersBelow next clients },
}
