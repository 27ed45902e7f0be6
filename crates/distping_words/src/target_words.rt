//! The words that name what is dialled: on the command line, and in the file of names.
//!
//! `NAME@HOST`, and `NAME@HOST:PORT` for a node whose port is known; `@HOST` for all nodes of a host; `NAME@dns:SERVICE` and `@dns:SERVICE`
//! for what stands at each address of a name.

ghost use Rattle.std.specs.Prelude.{◌≡◌};
ghost use Rattle.distping_words.specs.Ports.{port_given};

use crate::fault::Fault;
use dist_cluster::{MOST_NODES, ServiceName, Target, group_of, target_of};
use dist_names::{ByteString, NameError, NodeName, number_in};
use std::alloc::{AllocError, Global};

/// A node's port that its word gives.
#[derive(Drop)]
pub struct GivenPort {
    /// The node.
    pub node: NodeName,
    /// Its port.
    pub port: u16,
}

/// Why a word names nothing that is dialled.
#[derive(Clone, Copy)]
pub enum BadTarget {
    /// The node's name, or the host, breaks this rule.
    Name(NameError),
    /// What stands behind the host is no port.
    Port,
    /// The node has another port in a word before.
    TwoPorts,
}

impl BadTarget {
    /// The rule that it breaks, before the word. `is_host` says that the word begins with an `@`.
    pub fn rule(self, is_host: bool) -> &'static str {
        match self {
            BadTarget::Port => "behind NAME@HOST: stands a port from 1 to 65535: ",
            BadTarget::TwoPorts => "this node has another port in a word before: ",
            BadTarget::Name(NameError::BadByte) =>
                "a node's name has printable ASCII characters, and no space: ",
            _ if is_host =>
                "behind the @ of @HOST stands a host, of 1 to 246 bytes and without a further @: ",
            BadTarget::Name(NameError::TooLong) => "a node's name has at most 255 bytes: ",
            BadTarget::Name(_) =>
                "a node's name has one @, something on both sides, and 3 to 255 bytes: ",
        }
    }
}

// Why a name is bad, unless memory ran out.
fn bad_name(error: NameError) -> Result<BadTarget, Fault> {
    match error {
        NameError::NoMemory => Err(Fault::NoMemory),
        _ => Ok(BadTarget::Name(error)),
    }
}

// What stands before `@dns:` and behind it.
fn service_parts(word: &[u8]) -> Option<(&[u8], &[u8])> {
    let at = word.iter().position(|byte| *byte == b'@')?;
    let (short, back) = (word.get(..at)?, word.get(at..)?);
    Some((short, back.strip_prefix(b"@dns:".as_slice())?))
}

// The service of these parts.
fn service_of(alloc: Global, short: &[u8], host: &[u8]) -> Result<ServiceName, NameError> {
    let mut word = Vec::from_slice(alloc, b"@")?;
    word.extend_from_slice(host)?;
    let service = ServiceName {
        short: ByteString::from_slice(alloc, short)?,
        group: group_of(alloc, &word)?,
    };
    let _first = service.member(alloc, host)?;
    Ok(service)
}

// A word before the port that stands at its end, and the text of that port. The colons of an IPv6 address are none of a port, unless it
// stands between brackets.
fn port_parts(word: &[u8]) -> Option<(&[u8], &[u8])> {
    let colon = word.iter().rposition(|byte| *byte == b':')?;
    let (front, back) = (word.get(..colon)?, word.get(colon..)?);
    let at = front.iter().position(|byte| *byte == b'@')?;
    let (short, host) = (front.get(..at)?, front.get(at..)?);
    let is_plain = host.ends_with(b"]") || !host.iter().any(|byte| *byte == b':');
    if is_plain && !short.is_empty() {
        Some((front, back.strip_prefix(b":".as_slice())?))
    } else {
        None
    }
}

// The name in a word that has a port, whose host may be an IPv6 address between brackets.
fn name_before(alloc: Global, front: &[u8]) -> Result<NodeName, NameError> {
    let bytes: Vec<u8> = front
        .iter()
        .copied()
        .filter(|byte| *byte != b'[' && *byte != b']')
        .collect(alloc)?;
    NodeName::new(alloc, &bytes)
}

// The port that a text writes.
fn port_of(text: &[u8]) -> Option<u16> {
    match number_in(text, 10) {
        Some(number) if number > 0 => u16::try_from(number).ok(),
        _ => None,
    }
}

/// The port that a word gives this node, if one does: the first of these.
pub fn given_port(ports: &[GivenPort], node: &NodeName) -> Option<u16>
    ensures { result ≡ port_given ports.now node.now }
{
    let given = ports.iter().find(|given| given.node.is_same(node))?;
    Some(given.port)
}

// Keeps the port of a node. Returns whether no word gave it another.
fn keep_port(
    alloc: Global,
    ports: &mut Vec<GivenPort>,
    node: &NodeName,
    port: u16,
) -> Result<bool, AllocError> {
    if let Some(given) = given_port(ports, node) {
        return Ok(given == port);
    }
    ports.push(GivenPort {
        node: node.try_clone(alloc)?,
        port,
    })?;
    Ok(true)
}

// The node that a word names with its port, which is kept.
fn placed_node(
    alloc: Global,
    ports: &mut Vec<GivenPort>,
    front: &[u8],
    digits: &[u8],
) -> Result<Result<Target, BadTarget>, Fault> {
    let node = match name_before(alloc, front) {
        Ok(node) => node,
        Err(error) => return Ok(Err(bad_name(error)?)),
    };
    let Some(port) = port_of(digits) else {
        return Ok(Err(BadTarget::Port));
    };
    if keep_port(alloc, ports, &node, port)? {
        Ok(Ok(Target::Node(node)))
    } else {
        Ok(Err(BadTarget::TwoPorts))
    }
}

// What a word names.
fn named_by(
    alloc: Global,
    ports: &mut Vec<GivenPort>,
    word: &[u8],
) -> Result<Result<Target, BadTarget>, Fault> {
    let target = if let Some((short, host)) = service_parts(word) {
        service_of(alloc, short, host).map(Target::Service)
    } else if let Some((front, digits)) = port_parts(word) {
        return placed_node(alloc, ports, front, digits);
    } else {
        target_of(alloc, word)
    };
    match target {
        Ok(target) => Ok(Ok(target)),
        Err(error) => Ok(Err(bad_name(error)?)),
    }
}

/// Adds the target that a word names, unless there are too many, and its port, if it gives one. Returns why it names none.
pub fn push_target(
    alloc: Global,
    targets: &mut Vec<Target>,
    ports: &mut Vec<GivenPort>,
    word: &[u8],
) -> Result<Option<BadTarget>, Fault> {
    let target = match named_by(alloc, ports, word)? {
        Ok(target) => target,
        Err(bad) => return Ok(Some(bad)),
    };
    if targets.len() >= MOST_NODES {
        return Err(Fault::TooManyNodes);
    }
    targets.push(target)?;
    Ok(None)
}
