//! Finds the node, the port mapper that is checked, and whoever makes the node dial and starts it.

use crate::calls::CallPlaces;
use crate::command::CheckOrder;
use crate::fault::Fault;
use dist_epmd_calls::{LookupError, lookup};
use dist_names::short_part;
use dist_program::{CONNECT_SECONDS, Resolving, at_port, deadline_in, lookup_host};
use dist_stream::{DeadlineStream, connect_by};
use std::io;
use std::net::SocketAddr;
use std::time::Duration;

/// The most reads and writes of a call of the port mapper, if its time is not over before.
pub const TURNS: usize = 4096;

/// A connection to this place, made within 8 seconds, and quiet afterwards. An error is the system's, or the clock's.
pub fn talk_to<'a>(
    rt: &'a HostRuntime,
    place: &SocketAddr,
) -> io::Result<DeadlineStream<&'a HostRuntime>> {
    let until = deadline_in(rt, CONNECT_SECONDS)?;
    connect_by(rt, place, until)
}

fn addresses_of<R: Resolving>(
    rt: &HostRuntime,
    resolver: &R,
    host: &str,
) -> Result<Vec<SocketAddr>, Fault> {
    let limit = Duration::from_secs(u64::from(CONNECT_SECONDS));
    Ok(lookup_host(resolver, *rt, host, limit)?)
}

// The port of this node: the given one, or else that which the port mapper at this address has for it.
fn port_at(
    rt: &HostRuntime,
    order: &CheckOrder<'_>,
    node: &str,
    address: &SocketAddr,
) -> Result<u16, Fault> {
    if let Some(port) = order.port {
        return Ok(port);
    }
    let Ok(mut stream) = talk_to(rt, &at_port(address, order.mapper_port)) else {
        return Err(Fault::ConnectFailed("the port mapper"));
    };
    match lookup(rt.alloc(), &mut stream, short_part(node.as_bytes()), TURNS) {
        Ok(info) => Ok(info.port),
        Err(LookupError::NoMemory) => Err(Fault::NoMemory),
        Err(error) => Err(Fault::NotFound(error)),
    }
}

// The place of this node at this address of its host.
fn place_at(
    rt: &HostRuntime,
    order: &CheckOrder<'_>,
    node: &str,
    address: &SocketAddr,
) -> Result<SocketAddr, Fault> {
    let place = at_port(address, port_at(rt, order, node, address)?);
    match talk_to(rt, &place) {
        Ok(_) => Ok(place),
        Err(_) => Err(Fault::ConnectFailed("the node")),
    }
}

fn host_of(node: &str) -> &str {
    node.split_once('@').map_or("", |(_, host)| host)
}

/// Where the node listens, if one is checked: where the tunnel to it does, or at the first address of its host at which it is found. The fault
/// is that of the last address.
pub fn find_node<R: Resolving>(
    rt: &HostRuntime,
    resolver: &R,
    order: &CheckOrder<'_>,
) -> Result<Option<SocketAddr>, Fault> {
    let Some(node) = order.node else {
        return Ok(None);
    };
    if order.tunnel.is_some() {
        return find_place(rt, resolver, order.tunnel, "the tunnel (--tls-through)");
    }
    let mut fault = Fault::ConnectFailed("the node");
    for address in &addresses_of(rt, resolver, host_of(node))? {
        match place_at(rt, order, node, address) {
            Ok(place) => return Ok(Some(place)),
            Err(error) => fault = error,
        }
    }
    Err(fault)
}

/// Where somebody takes connections, if a place is named: at the first address of its host at which anybody does. `missing` is who is not
/// there otherwise.
pub fn find_place<R: Resolving>(
    rt: &HostRuntime,
    resolver: &R,
    named: Option<(&str, u16)>,
    missing: &'static str,
) -> Result<Option<SocketAddr>, Fault> {
    let Some((host, port)) = named else {
        return Ok(None);
    };
    for address in &addresses_of(rt, resolver, host)? {
        let place = at_port(address, port);
        if talk_to(rt, &place).is_ok() {
            return Ok(Some(place));
        }
    }
    Err(Fault::ConnectFailed(missing))
}

/// How the node at this place is made to dial, if that is asked for. Its port mapper is that of its host.
pub fn find_call<'a, R: Resolving>(
    rt: &HostRuntime,
    resolver: &R,
    order: &CheckOrder<'a>,
    place: Option<SocketAddr>,
) -> Result<Option<CallPlaces<'a>>, Fault> {
    let (Some(place), Some(node)) = (place, order.node) else {
        return Ok(None);
    };
    let missing = "nobody makes the node dial (bin/make_it_dial)";
    let orders = find_place(rt, resolver, order.make_it_dial, missing)?;
    Ok(orders.map(|orders| CallPlaces {
        orders,
        mapper: at_port(&place, order.mapper_port),
        host: host_of(node),
    }))
}
