//! A node that listens and is registered.

ghost use Rattle.std.specs.Prelude.{◌≡◌, ◌≢◌, [], IfOk};
ghost use Rattle.dist_names.specs.NodeName.{short_of};
ghost use Rattle.dist_run_hosts.specs.Setups as setups;
ghost use Rattle.dist_run_hosts.specs.Setups.{highest_of};

use crate::end_marks::EndMarks;
use crate::run_error::RunError;
use crate::seats::{SEATS, Shares, share_out};
use crate::sockets::{LocalListener, connect_to_port, listen};
use dist_core::{Limits, Setup, Version};
use dist_drive::{SocketStream, register};
use dist_epmd::{AliveReq, HIGHEST, LOWEST};
use dist_locked::{LockedNode, Tickets};
use dist_names::{Creation, NodeName};
use dist_run_plan::NodePlan;
use std::alloc::{AllocError, Global};
use std::net::{Net, TcpListener, TcpStream};
use std::sync::Arc;

/// How the port mapper is reached: its port, and the most turns of a call.
#[derive(Clone, Copy)]
pub struct MapperAccess {
    pub port: u16,
    pub turns: usize,
}

/// A node under its lock, with the socket that it listens on, and the connection that keeps it registered.
#[derive(Drop)]
pub struct Host {
    pub name: NodeName,
    pub node: LockedNode,
    pub listener: LocalListener,
    pub registered: SocketStream,
    /// Which of the threads that had its seats have ended.
    pub ended: EndMarks,
}

// The number of the highest version that a node knows.
fn highest(version: Version) -> u16
    ensures { result ≡ highest_of version }
{
    match version {
        Version::Five => LOWEST,
        Version::Six => HIGHEST,
    }
}

// What a node sends to the port mapper to be registered.
fn registration(alloc: Global, plan: &NodePlan, port: u16) -> Result<AliveReq, AllocError>
    ensures { IfOk result (λ r. r ≡ record {
      port = port;
      node_type = 77;
      protocol = 0;
      highest = highest_of plan.now.version;
      lowest = 5;
      name = short_of plan.now.name;
      extra = [];
    }) }
{
    let mut request = AliveReq::of_node(alloc, plan.name.short(), port, false)?;
    request.highest = highest(plan.version);
    Ok(request)
}

// Asks for the registration of a node, over a connection that is kept.
fn ask_for_registration<R: Net<Listener = TcpListener, Stream = TcpStream>>(
    rt: &R,
    alloc: Global,
    mapper: MapperAccess,
    request: &AliveReq,
) -> Result<(SocketStream, Creation), RunError> {
    let Ok(connection) = connect_to_port(rt, mapper.port) else {
        return Err(RunError::ConnectFailed);
    };
    let mut stream = connection.stream;
    match register(alloc, &mut stream, request, mapper.turns) {
        Ok(creation) => Ok((stream, creation)),
        Err(error) => Err(RunError::NotRegistered(error)),
    }
}

// What a node is set up with, with the creation that it got.
fn setup_of(alloc: Global, plan: &NodePlan, creation: Creation) -> Result<Setup, AllocError>
    ensures { IfOk result (λ setup. setup ≡ setups.setup_of plan.now creation) }
{
    let allow = match &plan.allow {
        None => None,
        Some(names) => Some(names.try_clone(alloc)?),
    };
    Ok(Setup {
        name: plan.name.try_clone(alloc)?,
        cookies: plan.cookies.try_clone(alloc)?,
        version: plan.version,
        flags: plan.flags,
        required: plan.required,
        creation,
        allow,
        limits: Limits::usual(),
    })
}

// Registers a node that listens at a port. Its setup has the creation that it got.
fn register_node<R: Net<Listener = TcpListener, Stream = TcpStream>>(
    rt: &R,
    alloc: Global,
    mapper: MapperAccess,
    plan: &NodePlan,
    port: u16,
) -> Result<(SocketStream, Setup), RunError> {
    let request = registration(alloc, plan, port)?;
    let (stream, creation) = ask_for_registration(rt, alloc, mapper, &request)?;
    Ok((stream, setup_of(alloc, plan, creation)?))
}

// The node of a setup under its lock, with its seats.
fn lock_node(
    alloc: Global,
    setup: Setup,
    tickets: &Arc<Tickets, Global>,
) -> Result<(LockedNode, Shares), AllocError> {
    let tickets = Arc::try_clone(tickets)?;
    let (node, seats) = LockedNode::new(alloc, setup, tickets, SEATS)?;
    Ok((node, share_out(seats)?))
}

/// Starts a node: it listens, and the port mapper gives it its creation. Refusals, in order: ListenFailed, ConnectFailed,
/// NotRegistered.
pub fn start<R: Net<Listener = TcpListener, Stream = TcpStream>>(
    rt: &R,
    alloc: Global,
    plan: &NodePlan,
    mapper: MapperAccess,
    tickets: &Arc<Tickets, Global>,
) -> Result<(Host, Shares), RunError>
    ensures name { IfOk result (λ started. started.0.name ≡ plan.now.name) }
    // At 0 the system chooses a port.
    ensures port { IfOk result (λ started. plan.now.listen ≢ 0 → started.0.listener.port ≡ plan.now.listen) }
{
    let name = plan.name.try_clone(alloc)?;
    let ended = EndMarks::new(alloc, SEATS)?;
    let Ok(listener) = listen(rt, plan.listen) else {
        return Err(RunError::ListenFailed);
    };
    let (registered, setup) = register_node(rt, alloc, mapper, plan, listener.port)?;
    let (node, shares) = lock_node(alloc, setup, tickets)?;
    let host = Host {
        name,
        node,
        listener,
        registered,
        ended,
    };
    Ok((host, shares))
}
