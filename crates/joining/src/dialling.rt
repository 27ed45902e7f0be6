//! Joins a node. At each address of its host, until the node is found, it asks the port mapper where the node listens, connects, and
//! drives the handshake. Each of these steps has its time by the clock.

use crate::command::JoinRequest;
use crate::fault::{FOUND, Fault};
use crate::handshake::{shake_hands, step};
use crate::link::Link;
use dist_program::{Budget, CONNECT_SECONDS, HostError, TimedStep, at_port, draw, one_turn};
use distribution::{
    DeadlineStream, EndId, Event, LookupError, Node, NodeName, Opening, Packets, Setup,
    SocketStream, Ticker, connect_by, deadline_after, lookup, opening_for, time_left,
};
use std::alloc::Global;
use std::net::SocketAddr;

/// The most reads and writes of a lookup, if its time is not over before. They bound the memory that an answer takes: 4,096 reads of
/// 4,096 bytes.
const TURNS_OF_A_LOOKUP: usize = 4096;

/// The most bytes of a packet that is accepted. Our own choice; Erlang nodes cut larger messages into fragments of 64 KiB if both sides
/// announce `DFLAG_FRAGMENTS`, which this one does not.
const MOST_OF_PACKET: usize = 16_777_216;

// A connection to this place, made within this step's share of the time.
fn connect(
    rt: &HostRuntime,
    place: &SocketAddr,
    step: TimedStep,
    budget: &mut Budget,
) -> Result<SocketStream, Fault> {
    let until = deadline_after(rt, budget.share(step))?;
    let made = connect_by(rt, place, until);
    budget.settle(step, time_left(rt, until));
    match made {
        Ok(stream) => Ok(stream.into_inner()),
        Err(_) => Err(match step {
            TimedStep::Mapper => Fault::NoMapper,
            _ => Fault::NoNode,
        }),
    }
}

// The same connection, which is quiet once the share of a second step is over.
fn reach(
    rt: &HostRuntime,
    place: &SocketAddr,
    steps: (TimedStep, TimedStep),
    budget: &mut Budget,
) -> Result<DeadlineStream<HostRuntime>, Fault> {
    let stream = connect(rt, place, steps.0, budget)?;
    let until = deadline_after(rt, budget.share(steps.1))?;
    Ok(DeadlineStream::new(stream, *rt, until))
}

// Where the node listens, and which opening it knows, as the port mapper at this address says.
fn way_to(
    rt: &HostRuntime,
    wanted: &JoinRequest<'_>,
    address: &SocketAddr,
    budget: &mut Budget,
) -> Result<(u16, Opening), Fault> {
    let place = at_port(address, wanted.mapper_port);
    let steps = (TimedStep::Mapper, TimedStep::Lookup);
    let mut stream = reach(rt, &place, steps, budget)?;
    let short = wanted.node.short();
    let answer = lookup(rt.alloc(), &mut stream, short, TURNS_OF_A_LOOKUP);
    budget.settle(TimedStep::Lookup, stream.time_left());
    match answer {
        Ok(info) => Ok((info.port, opening_for(&info))),
        Err(LookupError::NoMemory) => Err(Fault::NoMemory),
        Err(error) => Err(Fault::NotFound(error)),
    }
}

// Our node, and its end that dials the peer.
fn dialled_end(
    alloc: Global,
    setup: &Setup,
    peer: &NodeName,
    opening: Opening,
) -> Result<(Node, EndId), Fault> {
    let peer = peer.try_clone(alloc)?;
    let mut node = Node::new(alloc, setup.try_clone(alloc)?);
    let end_ = step(alloc, &mut node, &Event::Dial { peer, opening })?.end_;
    Ok((node, end_))
}

// Joins the node at this address of its host.
fn join_address(
    rt: &HostRuntime,
    setup: &Setup,
    wanted: &JoinRequest<'_>,
    address: &SocketAddr,
    budget: &mut Budget,
) -> Result<Link, Fault> {
    let alloc = rt.alloc();
    let (port, opening) = way_to(rt, wanted, address, budget)?;
    let challenge = draw(rt)?;
    let (node, end_) = dialled_end(alloc, setup, &wanted.node, opening)?;
    let steps = (TimedStep::Port, TimedStep::Talk);
    let mut stream = reach(rt, &at_port(address, port), steps, budget)?;
    let shaken = shake_hands(alloc, &mut stream, node, end_, challenge);
    budget.settle(TimedStep::Talk, stream.time_left());
    let (record, rest) = shaken?;
    Ok(Link {
        stream: SocketStream::with_turn(stream.into_inner().into_inner(), one_turn())?,
        record,
        packets: Packets::behind_handshake(alloc, MOST_OF_PACKET, rest),
        ticker: Ticker::new(u32::from(wanted.net_ticktime) * 250, 0),
        alloc,
    })
}

/// Joins the node at the first of these addresses of its host at which it is found. If it is found at none, the fault is that of the
/// address that got furthest, the first of several.
pub fn join_node(
    rt: &HostRuntime,
    setup: &Setup,
    wanted: &JoinRequest<'_>,
    addresses: &[SocketAddr],
) -> Result<Link, Fault> {
    let count = u32::try_from(addresses.len()).unwrap_or(u32::MAX);
    let mut budget = Budget::new(CONNECT_SECONDS, count);
    let mut furthest = Fault::NoHost(HostError::NoName);
    for address in addresses {
        match join_address(rt, setup, wanted, address, &mut budget) {
            Ok(link) => return Ok(link),
            Err(fault) if FOUND <= fault.reach() => return Err(fault),
            Err(fault) if furthest.reach() < fault.reach() => furthest = fault,
            Err(_) => {}
        }
        budget.go_on();
    }
    Err(furthest)
}
