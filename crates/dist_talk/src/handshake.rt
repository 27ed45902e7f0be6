//! What both sides of one handshake said, and how it ended.

ghost use Rattle.std.specs.Prelude.{◌≡◌, ◌+◌, [], None, OnErr, OnOk, false, length};
ghost use Rattle.dist_talk.specs.Handshake.{SameHandshake, Takes, or_first, said_by};

use dist_messages::{Message, Side};
use dist_names::ByteString;
use std::alloc::{AllocError, Global};

/// What a body says.
#[derive(Drop)]
pub enum SentContent {
    /// A message of the side that sent it.
    Message(Message),
    /// A body that is no message of that side.
    Other(ByteString),
}

/// What one side sent in one frame.
#[derive(Drop)]
pub struct SentMessage {
    /// When its last byte was there, in nanoseconds; 0 where nobody looked at a clock.
    pub at: u64,
    /// How many bodies both sides had sent before it.
    pub number: usize,
    /// What it says.
    pub content: SentContent,
}

/// How a side ended its part of a handshake.
#[derive(Clone, Copy, Debug, PartialEq, Eq)]
pub enum HowEnded {
    /// It closed the connection, and had received all that the other side said.
    Closed,
    /// It reset the connection, or the connection broke.
    Reset,
    /// It closed or reset the connection, and had not received what the other side said last.
    Unread,
    /// It said nothing whole in time, but this many bytes.
    Quiet(usize),
    /// It sent two bytes that are not the length of a frame of a handshake.
    Foreign(u16),
    /// Memory ran out here for what it said.
    NoMemory,
}

/// The end of a handshake.
#[derive(Clone, Copy, Debug, PartialEq, Eq)]
pub struct HandshakeEnd {
    /// The side that ended it.
    pub side: Side,
    /// How it did.
    pub how: HowEnded,
}

/// What of a handshake is missing, as in a capture that lost packets. Nothing is missing of one that was seen by one of its sides.
#[derive(Clone, Copy, Debug, PartialEq, Eq)]
pub struct Missing {
    /// The beginning of the connection.
    pub beginning: bool,
    /// Bytes of the dialling side, behind what it said.
    pub dialler: bool,
    /// Bytes of the accepting side, behind what it said.
    pub acceptor: bool,
}

/// What both sides of one handshake said, each in order, and how it ended.
#[derive(Drop)]
pub struct Handshake {
    /// What the dialling side said.
    pub dialler: Vec<SentMessage>,
    /// What the accepting side said.
    pub acceptor: Vec<SentMessage>,
    /// The first end, if one was seen.
    pub ending: Option<HandshakeEnd>,
    /// What is missing.
    pub missing: Missing,
}

impl Handshake {
    /// A handshake in which nothing was said yet.
    pub fn new(alloc: Global) -> Handshake
        ensures said { (result.dialler.items ≡ []) × (result.acceptor.items ≡ []) }
        ensures ending { result.ending ≡ None }
        ensures missing { result.missing ≡ record { beginning = false; dialler = false; acceptor = false } }
    {
        Handshake {
            dialler: Vec::new(alloc),
            acceptor: Vec::new(alloc),
            ending: None,
            missing: Missing {
                beginning: false,
                dialler: false,
                acceptor: false,
            },
        }
    }

    /// What a side said.
    pub fn messages_of(&self, side: Side) -> &[SentMessage]
        ensures { result.now ≡ said_by side self.now }
    {
        match side {
            Side::Dialler => &self.dialler,
            Side::Acceptor => &self.acceptor,
        }
    }

    /// How many bodies both sides sent.
    pub fn len(&self) -> usize
        ensures { result ≡ length self.now.dialler.items + length self.now.acceptor.items }
    {
        self.dialler.len() + self.acceptor.len()
    }

    /// Takes what a side sent, at this time. If memory runs out, the handshake stays as it was.
    pub fn take(&mut self, side: Side, content: SentContent, at: u64) -> Result<(), AllocError>
        ensures ok { OnOk result (Takes side content at self.old self.new) }
        ensures err { OnErr result (SameHandshake self.old self.new) }
    {
        let sent = SentMessage {
            at,
            number: self.len(),
            content,
        };
        match side {
            Side::Dialler => self.dialler.push(sent)?,
            Side::Acceptor => self.acceptor.push(sent)?,
        }
        Ok(())
    }

    /// Notes that a side ended the handshake. The first end counts.
    pub fn end(&mut self, side: Side, how: HowEnded)
        ensures said { (self.new.dialler.items ≡ self.old.dialler.items) × (self.new.acceptor.items ≡ self.old.acceptor.items) }
        ensures first { self.new.ending ≡ or_first self.old.ending (record { side = side; how = how }) }
        ensures missing { self.new.missing ≡ self.old.missing }
    {
        if self.ending.is_none() {
            self.ending = Some(HandshakeEnd { side, how });
        }
    }
}
