//! All nodes of a run, started.

use crate::host::{Host, MapperAccess, start};
use crate::run_error::RunError;
use crate::seats::{Pool, Shares};
use dist_locked::Tickets;
use dist_run_plan::NodePlan;
use std::alloc::Global;
use std::net::{Net, TcpListener, TcpStream};
use std::sync::Arc;

/// The seats of all nodes, by the threads that have them. Each list is in the order of the nodes.
#[derive(Drop)]
pub struct Pools {
    pub accepting: Vec<Pool>,
    pub first: Vec<Pool>,
    pub second: Vec<Pool>,
}

impl Pools {
    // Adds the seats of the next node.
    fn add(&mut self, shares: Shares) -> Result<(), RunError> {
        self.accepting.push(shares.accepting)?;
        self.first.push(shares.first)?;
        self.second.push(shares.second)?;
        Ok(())
    }
}

/// The nodes that were started, in the order of the plan, with their seats shared out.
#[derive(Drop)]
pub struct Started {
    pub hosts: Vec<Host>,
    pub pools: Pools,
}

// Starts each node.
fn start_each<R: Net<Listener = TcpListener, Stream = TcpStream>>(
    rt: &R,
    alloc: Global,
    plans: &[NodePlan],
    mapper: MapperAccess,
    all: &mut Started,
) -> Result<(), RunError> {
    let tickets = Arc::new(alloc, Tickets::new())?;
    for plan in plans {
        let (host, shares) = start(rt, alloc, plan, mapper, &tickets)?;
        all.hosts.push(host)?;
        all.pools.add(shares)?;
    }
    Ok(())
}

/// Starts the nodes of a plan, in its order. Refusals of each node, in order: ListenFailed, ConnectFailed, NotRegistered.
pub fn start_all<R: Net<Listener = TcpListener, Stream = TcpStream>>(
    rt: &R,
    alloc: Global,
    plans: &[NodePlan],
    mapper: MapperAccess,
) -> Result<Started, RunError> {
    let mut all = Started {
        hosts: Vec::new(alloc),
        pools: Pools {
            accepting: Vec::new(alloc),
            first: Vec::new(alloc),
            second: Vec::new(alloc),
        },
    };
    start_each(rt, alloc, plans, mapper, &mut all)?;
    Ok(all)
}
