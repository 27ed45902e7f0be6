//! What is left of a run, and its nodes, closed.

ghost use Rattle.std.specs.Prelude.{◌++◌, IfOk, IsPermutation};
ghost use Rattle.dist_run_hosts.specs.{Setups.AreOfPlans, Orders.AreObeyed, Runs.AreInOrder};

use crate::host::Host;
use crate::order_fault::OrderFault;
use crate::orders::are_obeyed;
use crate::run_error::RunError;
use crate::setups::are_of_plans;
use dist_drive::SocketStream;
use dist_locked::{Closed, Seat, close};
use dist_run_plan::Plan;
use std::alloc::Global;

/// What a thread leaves at a node: its seats, and the connections that stay open to the end of the run.
#[derive(Drop)]
pub struct Rest {
    pub seats: Vec<Seat>,
    pub streams: Vec<SocketStream>,
}

/// What the threads of a run leave.
#[derive(Drop)]
pub struct Ended {
    /// What is left at each node, in the order of the plan.
    pub rests: Vec<Rest>,
    /// The orders of the first worker that made no `Dial` step.
    pub first: Vec<OrderFault>,
    /// Those of the second.
    pub second: Vec<OrderFault>,
}

/// What a run leaves.
#[derive(Drop)]
pub struct Ran {
    /// The orders that made no `Dial` step, in the order of their numbers.
    pub faults: Vec<OrderFault>,
    /// The nodes, in the order of the plan.
    pub closed: Vec<Closed>,
    // A caller of `thread::scope` knows of the answer what its type says.
    ghost order: { AreInOrder faults.items },
}

// Closes the next node with its seats.
fn close_next(all: &mut Vec<Closed>, host: Host, seats: Vec<Seat>) -> Result<(), RunError> {
    match close(host.node.into_book(), seats) {
        Ok(closed) => Ok(all.push(closed)?),
        Err((error, _, _)) => Err(RunError::NotClosed(error)),
    }
}

// Closes all nodes.
fn close_all(alloc: Global, hosts: Vec<Host>, rests: Vec<Rest>) -> Result<Vec<Closed>, RunError> {
    let mut all = Vec::new(alloc);
    for (host, rest) in hosts.into_iter().zip(rests) {
        close_next(&mut all, host, rest.seats)?;
    }
    Ok(all)
}

// The faults of both workers, in the order of their numbers.
fn faults_of(first: Vec<OrderFault>, second: Vec<OrderFault>) -> Result<Vec<OrderFault>, RunError>
    ensures all { IfOk result (λ faults. IsPermutation (first.items ++ second.items) faults.items) }
    ensures order { IfOk result (λ faults. AreInOrder faults.items) }
{
    let mut faults = first;
    let mut second = second;
    faults.append(&mut second)?;
    faults
        .as_mut_slice()
        .sort_unstable_by_key(|fault| fault.number);
    Ok(faults)
}

// Closes the nodes of a run whose threads left this.
fn close_run(alloc: Global, hosts: Vec<Host>, ended: Ended) -> Result<Ran, RunError>
    ensures order { IfOk result (λ ran. AreInOrder ran.faults.items) }
    ensures all { IfOk result (λ ran. IsPermutation (ended.first.items ++ ended.second.items) ran.faults.items) }
{
    let closed = close_all(alloc, hosts, ended.rests)?;
    Ok(Ran {
        faults: faults_of(ended.first, ended.second)?,
        closed,
    })
}

/// Closes the nodes of a run, or lets them go where its threads failed.
pub fn end_run(
    alloc: Global,
    hosts: Vec<Host>,
    ended: Result<Ended, RunError>,
) -> Result<Ran, RunError>
    ensures { IfOk result (λ ran. AreInOrder ran.faults.items) }
{
    match ended {
        Ok(ended) => close_run(alloc, hosts, ended),
        Err(error) => Err(error),
    }
}

/// The result of a run of this plan, beside which the port mapper ended so: the first fault of the two, the port mapper's before the
/// run's. What is closed is compared with the plan: OtherSetup is returned for a node that differs, and then OtherOrders where the dials
/// that were made, with their openings, and the orders that are reported are not the plan's, each once.
pub fn judge(
    plan: &Plan,
    served: Result<(), RunError>,
    ran: Result<Ran, RunError>,
) -> Result<Ran, RunError>
    ensures order { IfOk result (λ ran. AreInOrder ran.faults.items) }
    ensures nodes { IfOk result (λ ran. AreOfPlans plan.now.node ran.closed.items) }
    ensures orders { IfOk result (λ ran. AreObeyed plan.now ran.faults.items ran.closed.items) }
{
    let ran = served.and(ran)?;
    if !are_of_plans(plan.node.as_slice(), ran.closed.as_slice()) {
        return Err(RunError::OtherSetup);
    }
    if !are_obeyed(plan, ran.faults.as_slice(), ran.closed.as_slice()) {
        return Err(RunError::OtherOrders);
    }
    Ok(ran)
}
