//! Questions of a client to the port mapper.

use crate::digits::{bytes_in, put_bytes, put_number, put_word, word};
use dist_epmd::NodeInfo;
use dist_epmd_calls::{LookupError, ask_names, lookup, register};
use dist_names::ByteString;
use dist_stream::FaultStream;
use std::alloc::Global;
use std::fmt::Write;

/// Looks up `a`, registers it, or asks for all names. Reports the answer, the bytes that were written, those that were not read, and
/// the number of reads and writes.
pub fn put_asked(
    alloc: Global,
    printed: &mut String,
    case: &str,
    stream: &mut FaultStream,
    limit: usize,
) -> Option<()> {
    put_answer(alloc, printed, case, stream, limit)?;
    put_word(printed, "said")?;
    put_bytes(alloc, printed, stream.output())?;
    put_word(printed, "left")?;
    put_bytes(alloc, printed, stream.unread())?;
    put_word(printed, "calls")?;
    put_number(printed, stream.calls())
}

fn put_answer(
    alloc: Global,
    printed: &mut String,
    case: &str,
    stream: &mut FaultStream,
    limit: usize,
) -> Option<()> {
    match word(case, 0) {
        "lookup" => look_up(alloc, printed, case, stream, limit),
        "register" => register_node(alloc, printed, case, stream, limit),
        _ => list(alloc, printed, stream, limit),
    }
}

// The name to ask for or to register, in digits: `a`, or another if the row ends with `name NAME`.
fn name_in(case: &str) -> &str {
    if word(case, 4) == "name" {
        word(case, 5)
    } else {
        "61"
    }
}

fn look_up(
    alloc: Global,
    printed: &mut String,
    case: &str,
    stream: &mut FaultStream,
    limit: usize,
) -> Option<()> {
    let name = bytes_in(alloc, name_in(case))?;
    match lookup(alloc, stream, &name, limit) {
        Ok(node) => put_node(alloc, printed, &node),
        Err(error) => put_refusal(printed, error),
    }
}

fn register_node(
    alloc: Global,
    printed: &mut String,
    case: &str,
    stream: &mut FaultStream,
    limit: usize,
) -> Option<()> {
    let node = node_of(alloc, name_in(case))?;
    match register(alloc, stream, &node, limit) {
        Ok(creation) => write!(printed, "creation {} ", creation.0).ok(),
        Err(error) => put_refusal(printed, error),
    }
}

fn list(alloc: Global, printed: &mut String, stream: &mut FaultStream, limit: usize) -> Option<()> {
    match ask_names(alloc, stream, limit) {
        Ok((port, text)) => {
            put_number(printed, port as u64)?;
            put_bytes(alloc, printed, text.as_slice())
        }
        Err(error) => put_refusal(printed, error),
    }
}

fn put_refusal(printed: &mut String, error: LookupError) -> Option<()> {
    put_word(printed, error.name())?;
    if let LookupError::Refused(code) = error {
        return put_number(printed, code as u64);
    }
    Some(())
}

// A node at port 9001 with this name, in digits.
fn node_of(alloc: Global, name: &str) -> Option<NodeInfo> {
    Some(NodeInfo {
        port: 9001,
        node_type: 77,
        protocol: 0,
        highest: 6,
        lowest: 5,
        name: ByteString::from_vec(bytes_in(alloc, name)?),
        extra: ByteString::new(alloc),
    })
}

// Reports a node: its five numbers, its name and its extra bytes.
fn put_node(alloc: Global, printed: &mut String, node: &NodeInfo) -> Option<()> {
    let (port, kind, protocol) = (node.port, node.node_type, node.protocol);
    let (highest, lowest) = (node.highest, node.lowest);
    write!(printed, "{port} {kind} {protocol} {highest} {lowest} ").ok()?;
    put_bytes(alloc, printed, node.name.as_slice())?;
    put_bytes(alloc, printed, node.extra.as_slice())
}
