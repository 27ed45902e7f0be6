//! A run, from its plan to its closed nodes.

ghost use Rattle.std.specs.Prelude.{IfOk};
ghost use Rattle.dist_run_hosts.specs.{Setups.AreOfPlans, Orders.AreObeyed, Runs.AreInOrder};

use crate::machine::Machine;
use crate::site::Site;
use crate::threads::run_threads;
use dist_locked::Gate;
use dist_run_hosts::{
    Challenges, LocalListener, MapperAccess, Places, Ran, RunError, Started, connect_to_port,
    end_run, judge, listen, mapper_limits, most_descriptors, places_of, serve_mapper, start_all,
};
use dist_run_plan::Plan;
use std::alloc::Global;
use std::sync::atomic::{AtomicBool, AtomicU64, Ordering};
use std::thread;

// The link of a dial that has no connection yet. No connection has it, since none leads to port 0.
const NO_LINK: u64 = 0;

// What a run is made from.
#[derive(Drop)]
struct Run<'a, R, G> {
    rt: &'a R,
    alloc: Global,
    plan: &'a Plan,
    gate: &'a G,
    mapper_port: u16,
    places: Places,
}

// The links of so many dials that have no connection yet.
fn no_links(alloc: Global, count: usize) -> Result<Vec<AtomicU64>, RunError> {
    let mut links = Vec::new(alloc);
    for _ in 0..count {
        links.push(AtomicU64::new(NO_LINK))?;
    }
    Ok(links)
}

// Starts the nodes, runs their threads, and closes what is left of them.
fn run_hosts<R: Machine, G: Gate + Sync>(
    run: &Run<'_, R, G>,
    challenges: Challenges,
) -> Result<Ran, RunError> {
    let (rt, alloc, turns) = (run.rt, run.alloc, run.plan.turns as usize);
    let (dials, mapper_port) = (run.plan.dial.as_slice(), run.mapper_port);
    let mapper = MapperAccess {
        port: mapper_port,
        turns,
    };
    let links = no_links(alloc, dials.len())?;
    let Started { hosts, pools } = start_all(rt, alloc, run.plan.node.as_slice(), mapper)?;
    let site = Site {
        rt,
        alloc,
        hosts: hosts.as_slice(),
        dials,
        links: links.as_slice(),
        mapper_port,
        places: run.places,
        turns,
        failed: AtomicBool::new(false),
    };
    let ended = run_threads(site, run.gate, pools, challenges);
    end_run(alloc, hosts, ended)
}

// How the descriptors of the process are shared out among what a plan has.
fn places_for(plan: &Plan) -> Places {
    let nodes = u16::try_from(plan.node.as_slice().len()).unwrap_or(u16::MAX);
    let dials = u16::try_from(plan.dial.as_slice().len()).unwrap_or(u16::MAX);
    places_of(most_descriptors(), nodes, dials)
}

// Serves the port mapper at this listener while the nodes run. Returns how the port mapper ended, and the run.
fn serve_beside<R: Machine, G: Gate + Sync>(
    run: &Run<'_, R, G>,
    listener: LocalListener,
    challenges: Challenges,
) -> (Result<(), RunError>, Result<Ran, RunError>) {
    let stop = AtomicBool::new(false);
    let (rt, alloc, stop) = (run.rt, run.alloc, &stop);
    let limits = mapper_limits(run.places.clients, run.plan.turns as usize);
    thread::scope(thread::scope_env(), rt, move |scope| {
        let serving = scope.spawn(move || serve_mapper(rt, alloc, listener, limits, stop));
        let Ok(handle) = serving else {
            return (Err(RunError::ThreadFailed), Err(RunError::ThreadFailed));
        };
        let ran = run_hosts(run, challenges);
        stop.store(true, Ordering::SeqCst);
        let _wakes_the_mapper = connect_to_port(rt, run.mapper_port);
        (handle.join(rt), ran)
    })
}

/// Runs a plan to its end: until each node's accepting thread was quiet for as many turns as the plan says, and all
/// connections have ended or made as many. Faults of the start, in order: NoRandomBytes, ListenFailed of the port mapper,
/// ThreadFailed, then of each node in the order of the plan those of its start, then ThreadFailed. NoMemory may come
/// anywhere. What is closed is compared with the plan: OtherSetup is returned for a node that differs, and then OtherOrders where the
/// dials that were made, with their openings, and the orders that are reported are not the plan's, each once. No run that was seen
/// has had either.
pub fn run_plan<R, G>(rt: &R, alloc: Global, plan: &Plan, gate: &G) -> Result<Ran, RunError>
where
    R: Machine,
    G: Gate + Sync,
    ensures order { IfOk result (λ ran. AreInOrder ran.faults.items) }
    ensures nodes { IfOk result (λ ran. AreOfPlans plan.now.node ran.closed.items) }
    ensures orders { IfOk result (λ ran. AreObeyed plan.now ran.faults.items ran.closed.items) }
{
    let challenges = Challenges::of_system(rt)?;
    let Ok(listener) = listen(rt, plan.port) else {
        return Err(RunError::ListenFailed);
    };
    let run = Run {
        rt,
        alloc,
        plan,
        gate,
        mapper_port: listener.port,
        places: places_for(plan),
    };
    let (served, ran) = serve_beside(&run, listener, challenges);
    judge(plan, served, ran)
}
