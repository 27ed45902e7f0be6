//! The events that a node gets.
ghost use Rattle.std.specs.Prelude.{◌≡◌};
ghost use Rattle.dist_core.specs.{Clauses.end_of, Losses.is_loss, Losses.cause_of_loss};

use dist_core_ends::Why;
use dist_messages::Opening;
use dist_names::{ByteString, NodeName};
use dist_peers::EndId;

/// What can happen to a node. An end is what the node keeps of one connection. A `link` is the caller's number for a connection;
/// the node does not keep it. Our own choice: an Erlang node has a process for each connection, and messages between them.
#[derive(Debug, Drop, PartialEq, Eq)]
pub enum Event {
    /// The node is to connect to this peer. A new end is given out.
    Dial { peer: NodeName, opening: Opening },
    /// The connection of a dialled end is there.
    Opened { end_: EndId, link: u64 },
    /// A connection came. A new end is given out.
    Incoming { link: u64 },
    /// The body of a frame came on this end.
    Frame { end_: EndId, body: ByteString },
    /// The connection of this end is lost, or is given up.
    Lost { end_: EndId, why: Why },
    /// A tick is due on this end.
    Tick { end_: EndId },
}

impl Event {
    /// Whether it reports a loss.
    pub fn is_lost(&self) -> bool
        ensures { result ≡ is_loss self.now }
    {
        matches!(self, Event::Lost { .. })
    }

    /// The cause that a loss reports.
    pub fn lost_why(&self) -> Option<Why>
        ensures { result ≡ cause_of_loss self.now }
    {
        match self {
            Event::Lost { why, .. } => Some(*why),
            _ => None,
        }
    }

    /// The end that it names.
    pub fn end_named(&self) -> Option<EndId>
        ensures { result ≡ end_of self.now }
    {
        match self {
            Event::Dial { .. } | Event::Incoming { .. } => None,
            Event::Opened { end_, .. }
            | Event::Frame { end_, .. }
            | Event::Lost { end_, .. }
            | Event::Tick { end_ } => Some(*end_),
        }
    }
}
