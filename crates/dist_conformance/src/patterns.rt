//! What a row demands of the bytes that come.

use crate::lists::SuiteList;
use crate::shapes::{Framing, Shape};
use dist_names::{ByteString, Flags};

/// What the value of a field has to be.
#[derive(Drop)]
pub enum Test {
    /// These bytes.
    Is(ByteString),
    /// A number that is not below this one.
    AtLeast(u32),
    /// Not 0.
    Given,
    /// None of the numbers that came before in this talk.
    Fresh,
    /// A number from which at least one that came before in this talk differs by 65,536 or more, if any came.
    Apart,
    /// Flags among which are these.
    Has(Flags),
    /// Flags among which not all of these are.
    Lacks(Flags),
    /// The flags of the challenge that came first in this talk, if one came before.
    Alike,
    /// The digest of the cookie and this challenge.
    Digest(u32),
    /// No bytes.
    Empty,
    /// Bytes without `@`.
    NoHost,
}

/// A condition on one field of a message.
#[derive(Drop)]
pub struct Check {
    /// Its place among the fields of the shape, from 0.
    pub place: usize,
    /// What it has to be.
    pub test: Test,
}

/// What packets have to be that come while a connection stays open, beside that they are whole and each is a tick or begins with 112 or 131.
#[derive(Clone, Copy)]
pub struct PacketCheck {
    /// How many milliseconds the connection stays open.
    pub time: u32,
    /// At least so many are ticks.
    pub least: u32,
    /// At most so many are.
    pub most: u32,
}

/// What the answer to a question for all names has to be, beside a port in 4 bytes and lines that all end in a line feed.
#[derive(Drop)]
pub enum NamesCheck {
    /// Any will do.
    Any,
    /// The port is this one.
    Port(u32),
    /// One of the lines is this one.
    Has(ByteString),
    /// No line begins so.
    Lacks(ByteString),
}

/// One thing that is awaited on a connection. In rows a pattern is one of the words in the first column, and what stands behind it.
///
/// | Words | Matches |
/// |---|---|
/// | `end` | the end of the connection, before which nothing came |
/// | `silence MS` | so many milliseconds in which nothing comes and the connection stays open |
/// | `open MS` | so many milliseconds in which the connection stays open, and all that came |
/// | `packets MS least=N most=N` | the same, where all that came is packets: ticks, at least and at most N, and such as begin with 112 or 131 |
/// | `packet BYTES` | ticks, if any, and then a packet that begins with these bytes |
/// | `bytes BYTES` | these bytes |
/// | `frame BYTES` | a frame of the handshake whose body begins with these bytes |
/// | `status WORD` | the frame of this status |
/// | `name`, `oldname`, `challenge`, `complement` | the frame of this message: checks |
/// | `reply` | the frame of a reply to our challenge, 123456789 or `challenge=N`, by the cookie |
/// | `ack` | the frame of the acknowledgement of our challenge, 123456789 or `challenge=N`, by the cookie |
/// | `alive2req` | the frame of a registration, whatever stands behind its fields: checks |
/// | `alive2x ok`, `alive2y ok` | an answer to a registration: result 0, and a creation of 4 or of 2 bytes that is not 0 |
/// | `alive2x fresh` | the same, and the creation is none of the numbers that came before in this talk |
/// | `alive2x refused`, `alive2y refused` | such an answer with another result, and any creation |
/// | `port2 known` | the answer to a lookup: a node with just these fields, which are those of `alive2` ([`SaidPart`](crate::SaidPart)) |
/// | `port2 unknown` | the answer to a lookup with a result that is not 0 |
/// | `names` | the answer to a question for all names, and the end: `port=N`, `has=NAME at=PORT`, `hasnot=NAME` |
///
/// A check is `FIELD=VALUE`, by the words of the message's fields; `FIELD>=N` of a number in 4 bytes; `has=FLAG` and `hasnot=FLAG`; of a
/// challenge `fresh`: none of the numbers that came before in this talk; `apart`: at least one of those, if any came, differs from it by
/// 65,536 or more; `alike`: its flags are those of the challenge that came first in this talk; and `bare`: nothing stands behind the last
/// field, and a registered name has no `@`. A packet stands behind its length in 4 bytes; an empty one is a tick. The pattern `packets`
/// fails as soon as a packet begins otherwise, too many ticks came, or a packet has come in part and nothing followed for 1,000
/// milliseconds.
///
/// Sources: ERTS User's Guide, Distribution Protocol, Distribution Handshake, Protocol between Connected Nodes; EPMD Protocol.
#[derive(Drop)]
pub enum Pattern {
    /// `end`.
    End,
    /// `silence`, with its milliseconds.
    Silence(u32),
    /// `open`, with its milliseconds.
    Open(u32),
    /// `packets`.
    Packets(PacketCheck),
    /// `bytes`; `status` and `port2 known` are just the bytes of that.
    Bytes(ByteString),
    /// `frame` and `packet`: a body that begins so.
    Body(Framing, ByteString),
    /// A message of this shape whose fields pass all checks.
    Message(Shape, SuiteList<Check>),
    /// `names`.
    Names(NamesCheck),
}
