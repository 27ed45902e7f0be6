//! What was found out about a node.

ghost use Rattle.std.specs.Prelude.{◌≡◌, None, option_map};
ghost use Rattle.dist_talk.specs.Described.{view_of};
ghost use Rattle.distping_report.specs.Found.{described_in};

use dist_epmd::PortInfo;
use dist_messages::{Message, Side, Status};
use dist_talk::{Handshake, HandshakeVerdict, NodeDescription, SentContent};
use std::net::SocketAddr;
use std::time::Duration;

/// What was found out about a node at one address of its host.
#[derive(Drop)]
pub struct Found {
    /// The address.
    pub address: Option<SocketAddr>,
    /// What the port mapper knows of it.
    pub registration: Option<PortInfo>,
    /// The port that was dialled.
    pub port: Option<u16>,
    /// What was said there, if a connection was made.
    pub handshake: Option<Handshake>,
    /// How long after our last message the talk ended, if a connection was made.
    pub ended_after: Option<Duration>,
}

impl Found {
    /// Nothing found yet, at this address.
    pub fn nothing(address: Option<SocketAddr>) -> Found
        ensures address { result.address ≡ address }
        ensures nothing { (result.registration ≡ None) × (result.port ≡ None) × (result.handshake ≡ None) }
    {
        Found {
            address,
            registration: None,
            port: None,
            handshake: None,
            ended_after: None,
        }
    }

    /// The status with which the node answered.
    pub fn status(&self) -> Option<Status> {
        match self.handshake.as_ref()?.acceptor.first()?.content {
            SentContent::Message(Message::Status(status)) => Some(status),
            _ => None,
        }
    }

    /// The word of a status that no node sends, where one came in place of a status.
    pub fn strange_status(&self) -> Option<&[u8]> {
        match &self.handshake.as_ref()?.acceptor.first()?.content {
            SentContent::Other(body) => body.as_slice().strip_prefix(b"s"),
            SentContent::Message(_) => None,
        }
    }

    /// What the node says of itself.
    pub fn peer(&self) -> Option<NodeDescription<'_>>
        ensures { option_map view_of result ≡ described_in Side.Acceptor self.now.handshake }
    {
        self.handshake.as_ref()?.description_of(Side::Acceptor)
    }
}

/// The result of a probe.
#[derive(Drop)]
pub struct ProbeOutcome {
    /// The verdict at the address that got furthest.
    pub verdict: HandshakeVerdict,
    /// What was found out at that address.
    pub found: Found,
    /// The addresses of the host, in the resolver's order.
    pub addresses: Vec<SocketAddr>,
    /// The verdict at each address that was tried, in this order.
    pub verdicts: Vec<HandshakeVerdict>,
}

/// What was found out about the node that dialled.
#[derive(Drop)]
pub struct Caller {
    /// The address that it dialled from.
    pub address: Option<SocketAddr>,
    /// What was said, if a connection was taken.
    pub handshake: Option<Handshake>,
}

impl Caller {
    /// Nothing found yet.
    pub fn nobody() -> Caller
        ensures { (result.address ≡ None) × (result.handshake ≡ None) }
    {
        Caller {
            address: None,
            handshake: None,
        }
    }

    /// What the node that dialled says of itself.
    pub fn peer(&self) -> Option<NodeDescription<'_>> {
        self.handshake.as_ref()?.description_of(Side::Dialler)
    }
}
