//! The calls of the port mapper, over which each allocation fails in turn: `rt try --test --fail-alloc N`. With enough memory each call
//! succeeds.

use dist_epmd::{NodeInfo, Registry};
use dist_epmd_calls::{LookupError, Served, ask_names, lookup, register, serve_registry};
use dist_stream::FaultStream;
use std::alloc::Global;
use std::test::*;

// The registration of node a at port 9001.
const REGISTRATION: &[u8] = b"\x00\x0e\x78\x23\x29\x4d\x00\x00\x06\x00\x05\x00\x01a\x00\x00";

// A stream over these bytes, in one piece. `None`, here and below: memory was refused to the test itself.
fn over(alloc: Global, input: &[u8]) -> Option<FaultStream> {
    Some(FaultStream::new(alloc, Vec::from_slice(alloc, input).ok()?))
}

// Whether a call went well or ran out of memory. A stream in memory fails to write if it runs out of memory.
fn is_fine(error: Option<LookupError>) -> bool {
    matches!(
        error,
        None | Some(LookupError::NoMemory | LookupError::WriteFailed)
    )
}

// Serves a request. `a` is registered afterwards if it was before, or the request was answered so.
fn is_served(alloc: Global, registry: &mut Registry, conn: u64, frame: &[u8]) -> Option<bool> {
    let mut stream = over(alloc, frame)?;
    let was_kept = registry.port_please(b"a").is_some();
    let served = serve_registry(alloc, &mut stream, registry, conn, 100);
    let is_kept = registry.port_please(b"a").is_some();
    let is_to_be_kept = was_kept || served == Ok(Served::Registered);
    Some(is_fine(served.err()) && is_kept == is_to_be_kept)
}

// A registration of `a`, a lookup of it, and the question for all names, each on a connection of its own.
fn are_served(alloc: Global, registry: &mut Registry) -> Option<bool> {
    let registered = is_served(alloc, registry, 1, REGISTRATION)?;
    let found = is_served(alloc, registry, 2, b"\x00\x02\x7aa")?;
    let named = is_served(alloc, registry, 3, b"\x00\x01\x6e")?;
    Some(registered && found && named)
}

fn is_found(alloc: Global) -> Option<bool> {
    let mut stream = over(
        alloc,
        b"\x77\x00\x23\x29\x4d\x00\x00\x06\x00\x05\x00\x01a\x00\x00",
    )?;
    Some(is_fine(lookup(alloc, &mut stream, b"a", 100).err()))
}

fn is_registered(alloc: Global) -> Option<bool> {
    let mut stream = over(alloc, b"\x76\x00\x00\x00\x00\x01")?;
    let node = NodeInfo::of_node(alloc, b"a", 9001, false).ok()?;
    Some(is_fine(register(alloc, &mut stream, &node, 100).err()))
}

fn is_named(alloc: Global) -> Option<bool> {
    let mut stream = over(alloc, b"\x00\x00\x00\x00\x01")?;
    Some(is_fine(ask_names(alloc, &mut stream, 100).err()))
}

// Whether each call is fine, of the server and of a client.
fn are_all_fine(alloc: Global) -> Option<bool> {
    let mut registry = Registry::new(alloc, 4369, 1);
    let are_served = are_served(alloc, &mut registry)?;
    Some(are_served && is_found(alloc)? && is_registered(alloc)? && is_named(alloc)?)
}

// Only one request is refused, so it is tried twice.
#[test]
fn port_mapper_memory_refused(rt: HostRuntime) {
    let are_fine = match are_all_fine(rt.alloc()) {
        None => are_all_fine(rt.alloc()),
        reported => reported,
    };
    assert_eq!(rt; are_fine, Some(true));
}
