//! The messages of the port mapper.

ghost use Rattle.std.specs.Prelude.{◌≡◌, IfOk};
ghost use Rattle.dist_epmd.specs.Nodes.{type_of, info_of_node};

use dist_names::ByteString;
use std::alloc::{AllocError, Global};

/// The port of the port mapper, unless another one is named (ERTS User's Guide, Distribution Protocol, EPMD Protocol).
pub const MAPPER_PORT: u16 = 4369;

/// The node type of a node that is not hidden (ERTS User's Guide, Distribution Protocol, Register a Node in EPMD).
pub const NORMAL: u8 = 77;

/// The node type of a hidden node.
pub const HIDDEN: u8 = 72;

/// The protocol of TCP over IPv4.
pub const TCP: u8 = 0;

/// The highest version of the handshake.
pub const HIGHEST: u16 = 6;

/// The lowest version of the handshake.
pub const LOWEST: u16 = 5;

/// What a node says of itself when it registers, and what a lookup of it returns.
///
/// The fields are spelled one behind the other, numbers in big-endian order (ERTS User's Guide, EPMD Protocol):
///
/// | Field | Bytes | Meaning |
/// |---|---|---|
/// | `port` | 2 | the port at which the node accepts connections of other nodes |
/// | `node_type` | 1 | 0x4d for a normal node ([`NORMAL`]), 0x48 for a hidden one ([`HIDDEN`]) |
/// | `protocol` | 1 | 0 for TCP over IPv4 ([`TCP`]) |
/// | `highest` | 2 | the highest version of the handshake that the node knows ([`HIGHEST`]) |
/// | `lowest` | 2 | the lowest one ([`LOWEST`]) |
/// | | 2 | the number of bytes of the name |
/// | `name` | | the part of the node's name before the `@` |
/// | | 2 | the number of bytes of `extra` |
/// | `extra` | | whatever the node adds |
///
/// Reading accepts any value of each field. A `name` or `extra` of more than 65,535 bytes has no spelling.
#[derive(Drop)]
pub struct NodeInfo {
    /// The TCP port at which the node accepts connections.
    pub port: u16,
    /// The type of the node.
    pub node_type: u8,
    /// The protocol that it speaks.
    pub protocol: u8,
    /// The highest version of the handshake that it knows.
    pub highest: u16,
    /// The lowest one.
    pub lowest: u16,
    /// The part of its name before the `@`, at most 65,535 bytes.
    pub name: ByteString,
    /// Whatever it adds, at most 65,535 bytes.
    pub extra: ByteString,
}

impl NodeInfo {
    /// What a node says of itself if it knows all versions of the handshake, at least 5 and at most 6, over TCP and IPv4.
    /// `short` is the part of its name before the `@`, and `port` the one at which it accepts connections. A hidden node is one
    /// that its peers don't announce to each other.
    ///
    /// A node that knows fewer versions lowers `highest`. It fails only where memory runs out.
    ///
    /// Source: ERTS User's Guide, Distribution Protocol, Register a Node in EPMD.
    pub fn of_node(
        alloc: Global,
        short: &[u8],
        port: u16,
        hidden: bool,
    ) -> Result<NodeInfo, AllocError>
        ensures { IfOk result (λ info. info ≡ info_of_node short.now port hidden) }
    {
        Ok(NodeInfo {
            port,
            node_type: type_of(hidden),
            protocol: TCP,
            highest: HIGHEST,
            lowest: LOWEST,
            name: ByteString::from_slice(alloc, short)?,
            extra: ByteString::new(alloc),
        })
    }

    /// An equal value. It fails only where memory runs out.
    pub fn try_clone(&self, alloc: Global) -> Result<NodeInfo, AllocError>
        ensures { IfOk result (λ copy. copy ≡ self.now) }
    {
        Ok(NodeInfo {
            port: self.port,
            node_type: self.node_type,
            protocol: self.protocol,
            highest: self.highest,
            lowest: self.lowest,
            name: self.name.try_clone(alloc)?,
            extra: self.extra.try_clone(alloc)?,
        })
    }
}

// The byte for the type of a hidden node, or of a normal one.
fn type_of(hidden: bool) -> u8
    ensures { result ≡ type_of hidden }
{
    if hidden { HIDDEN } else { NORMAL }
}

/// What a registration says of the node.
pub type AliveReq = NodeInfo;

/// What a lookup returns of the node.
pub type PortInfo = NodeInfo;

/// What a node or a tool asks of the port mapper (ERTS User's Guide, EPMD Protocol).
///
/// | Request | First byte | What follows |
/// |---|---|---|
/// | `Alive`, ALIVE2_REQ | 0x78 | the fields of [`NodeInfo`] |
/// | `PortPlease`, PORT_PLEASE2_REQ | 0x7a | a name, to the end |
/// | `Names`, NAMES_REQ | 0x6e | nothing |
///
/// This is the body of a frame: the 2 bytes of the frame's length stand before it and are not part of it, so it has at
/// most 65,535 bytes.
#[derive(Drop)]
pub enum Request {
    /// Asks to be registered as long as the connection lasts.
    Alive(NodeInfo),
    /// Asks for the node of this name, the part before the `@`. The name may be any bytes; bytes that are no name have no node.
    PortPlease(ByteString),
    /// Asks for all names.
    Names,
}

/// What the port mapper answers (ERTS User's Guide, EPMD Protocol). No length stands before it.
///
/// | Answer | Asked | Bytes |
/// |---|---|---|
/// | `AliveX`, ALIVE2_X_RESP | `Alive` | 0x76, result 1 byte, creation 4 bytes |
/// | `Alive`, ALIVE2_RESP | `Alive` | 0x79, result 1 byte, creation 2 bytes |
/// | `Port(Ok)`, PORT2_RESP | `Port` | 0x77, 0, the fields of [`NodeInfo`] |
/// | `Port(Err)`, PORT2_RESP | `Port` | 0x77, result 1 byte, not 0 |
/// | `Names`, NAMES_RESP | `Names` | port 4 bytes, text to the end |
///
/// A result of 0 is success. The guide's field `Result` is `result_code` here.
#[derive(Drop)]
pub enum Answer {
    /// The answer to a registration by a node that knows version 6 of the handshake.
    AliveX { result_code: u8, creation: u32 },
    /// The answer to a registration by a node that knows no version above 5.
    Alive { result_code: u8, creation: u16 },
    /// The node that was asked for, or the result of a lookup that found none.
    Port(Result<NodeInfo, u8>),
    /// The port mapper's own port, and the text of all names as it came.
    Names { port: u32, text: ByteString },
}

/// Which request an answer belongs to. The answer's first byte does not show it: an answer to `Names` has no such byte.
#[derive(Clone, Copy, PartialEq, Eq)]
pub enum Asked {
    /// A registration.
    Alive,
    /// A lookup of one name.
    Port,
    /// All names.
    Names,
}
