//! The threads of the nodes of a run: those that accept, and the two that dial.

ghost use Rattle.std.specs.Prelude.{◌≡◌, ◌≤◌};

use crate::accepting::accept_all;
use crate::dialling::{Post, Shift, Worked, work};
use crate::machine::Machine;
use crate::site::Site;
use dist_locked::{CAPACITY, Gate, MOST_ORDERS, Orders, dispatch};
use dist_run_hosts::{Challenges, Ended, Pool, Pools, Rest, RunError};
use std::sync::atomic::Ordering;
use std::thread::{self, JoinHandle, Scope, Threads};

// The number of the orders, of which a nodes file has no more than 64. None is given out where the run has failed.
fn order_count<R>(site: &Site<'_, R>) -> u32
    ensures { result ≤ 64 }
{
    if site.failed.load(Ordering::SeqCst) {
        return 0;
    }
    u32::try_from(site.dials.len())
        .unwrap_or(MOST_ORDERS)
        .min(MOST_ORDERS)
}

// Both workers, until all orders are taken and all their connections have ended.
fn run_workers<'s, E, R: Machine, G: Gate + Sync>(
    scope: &'s Scope<'s, E>,
    site: &'s Site<'s, R>,
    orders: &Orders,
    one: Shift<'_, G>,
    two: Shift<'_, G>,
) -> (Worked, Worked)
    requires { (one.pass.table ≡ orders.now.table) × (two.pass.table ≡ orders.now.table) }
{
    thread::join(
        site.rt,
        move || -> Worked
            requires { one.pass.table ≡ orders.now.table }
        { work(scope, site, orders, one) },
        move || -> Worked
            requires { two.pass.table ≡ orders.now.table }
        { work(scope, site, orders, two) },
    )
}

// The dispatcher and both workers.
fn work_off_orders<'s, E, R: Machine, G: Gate + Sync>(
    scope: &'s Scope<'s, E>,
    site: &'s Site<'s, R>,
    gate: &G,
    pools: (Vec<Pool>, Vec<Pool>),
    mut challenges: Challenges,
) -> Result<(Worked, Worked), RunError> {
    let (orders, put, one, two) = Orders::new(site.alloc, CAPACITY)?;
    let _put = dispatch(site.rt, &orders, put, order_count(site));
    let one = Shift {
        post: Post { gate, worker: 0 },
        pass: one,
        pools: pools.0,
        challenges: challenges.fork(),
    };
    let two = Shift {
        post: Post { gate, worker: 1 },
        pass: two,
        pools: pools.1,
        challenges,
    };
    Ok(run_workers(scope, site, &orders, one, two))
}

// Starts the accepting threads. Where a node gets none, the run fails.
fn start_accepting<'s, E, R: Machine>(
    scope: &'s Scope<'s, E>,
    site: &'s Site<'s, R>,
    pools: Vec<Pool>,
    challenges: &mut Challenges,
) -> Result<Vec<JoinHandle<Rest>>, RunError> {
    let mut handles = Vec::with_capacity(site.alloc, site.hosts.len())?;
    for (host, pool) in site.hosts.iter().zip(pools) {
        let mine = challenges.fork();
        let started = scope.spawn(move || accept_all(scope, site, host, pool, mine));
        match started.ok() {
            Some(handle) => site.keep(&mut handles, handle),
            None => site.fail(),
        }
    }
    Ok(handles)
}

// Joins the accepting threads.
fn join_accepting<R: Threads>(site: &Site<'_, R>, handles: Vec<JoinHandle<Rest>>) -> Vec<Rest> {
    let mut rests = Vec::new(site.alloc);
    for handle in handles {
        site.keep(&mut rests, handle.join(site.rt));
    }
    rests
}

// Adds the seats that a worker leaves at each node to those of the accepting threads. Without memory for them the run fails.
fn gather<R>(site: &Site<'_, R>, all: &mut [Rest], worked: Vec<Rest>) {
    for (rest, mut more) in all.iter_mut().zip(worked) {
        if rest.seats.append(&mut more.seats).is_err() {
            site.fail();
        }
    }
}

// Has the workers work while the nodes accept.
fn accept_and_dial<'s, E, R: Machine, G: Gate + Sync>(
    scope: &'s Scope<'s, E>,
    site: &'s Site<'s, R>,
    gate: &G,
    pools: Pools,
    mut challenges: Challenges,
) -> Result<Ended, RunError> {
    let handles = start_accepting(scope, site, pools.accepting, &mut challenges)?;
    let started = handles.len();
    let worked = work_off_orders(scope, site, gate, (pools.first, pools.second), challenges);
    if worked.is_err() {
        site.fail();
    }
    let mut rests = join_accepting(site, handles);
    let (first, second) = worked?;
    gather(site, rests.as_mut_slice(), first.rests);
    gather(site, rests.as_mut_slice(), second.rests);
    match site.fault(started) {
        Some(fault) => Err(fault),
        None => Ok(Ended {
            rests,
            first: first.faults,
            second: second.faults,
        }),
    }
}

/// Runs all threads of the nodes, and returns once they have ended. Returns `ThreadFailed` if the accepting thread of a node
/// could not be started, `NoMemory` if memory ran out.
pub fn run_threads<R: Machine, G: Gate + Sync>(
    site: Site<'_, R>,
    gate: &G,
    pools: Pools,
    challenges: Challenges,
) -> Result<Ended, RunError> {
    let site = &site;
    thread::scope(
        thread::scope_env(),
        site.rt,
        move |scope| accept_and_dial(scope, site, gate, pools, challenges),
    )
}
