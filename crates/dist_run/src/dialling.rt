//! The workers that dial.

ghost use Rattle.std.specs.Prelude.{◌≡◌};

use crate::crew::Crew;
use crate::machine::Machine;
use crate::site::Site;
use dist_core::{Event, Opening, StepError, Why};
use dist_drive::{lookup, opening_for};
use dist_locked::{Gate, LAST_ORDER, Moment, Orders, TakePass};
use dist_names::{ByteString, NodeName};
use dist_peers::EndId;
use dist_run_hosts::{
    Challenges, LinkStream, OrderFault, OrderRefusal, Pool, Rest, connect_to_port,
};
use std::thread::{self, Scope};

/// A worker, and where it asks whether to go on.
#[derive(Drop)]
pub struct Post<'a, G> {
    pub gate: &'a G,
    /// 0 or 1: which worker it is.
    pub worker: u32,
}

/// What a worker has: its right to take orders, and for each node its seats.
#[derive(Drop)]
pub struct Shift<'a, G> {
    pub post: Post<'a, G>,
    pub pass: TakePass,
    pub pools: Vec<Pool>,
    pub challenges: Challenges,
}

/// What a worker leaves: what is left at each node, and the orders that made no `Dial` step.
#[derive(Drop)]
pub struct Worked {
    pub rests: Vec<Rest>,
    pub faults: Vec<OrderFault>,
}

// Asks the port mapper at which port a peer listens, and how it is spoken to.
fn find_peer<R: Machine>(
    site: &Site<'_, R>,
    to: &NodeName,
) -> Result<(u16, Opening), OrderRefusal> {
    let connection = match connect_to_port(site.rt, site.mapper_port) {
        Ok(connection) => connection,
        Err(error) => return Err(OrderRefusal::of_connect(&error)),
    };
    let mut stream = connection.stream;
    match lookup(site.alloc, &mut stream, to.short(), site.turns) {
        Ok(peer) => Ok((peer.port, opening_for(&peer))),
        Err(error) => Err(OrderRefusal::of_lookup(error, site.places.is_short)),
    }
}

// The step that begins a dial.
fn begin<E, R: Machine>(
    site: &Site<'_, R>,
    crew: &mut Crew<'_, E>,
    to: &NodeName,
    opening: Opening,
) -> Result<EndId, OrderRefusal> {
    let Ok(peer) = to.try_clone(site.alloc) else {
        return Err(OrderRefusal::Step(StepError::NoMemory));
    };
    match crew.step(site.rt, &Event::Dial { peer, opening }) {
        Ok((end_, _)) => Ok(end_),
        Err(error) => Err(OrderRefusal::Step(error)),
    }
}

// Gives the node a connection, between the two moments of the gate: what its end sends, or why it is to be lost.
fn open_dialled<E, R: Machine, G: Gate>(
    rt: &R,
    post: &Post<'_, G>,
    crew: &mut Crew<'_, E>,
    end_: EndId,
    link: u64,
) -> Result<ByteString, Why> {
    if !post.gate.at(post.worker, Moment::BeforeStep) {
        return Err(Why::GaveUp);
    }
    let opened = crew.step(rt, &Event::Opened { end_, link });
    if !post.gate.at(post.worker, Moment::AfterStep) {
        return Err(Why::GaveUp);
    }
    match opened {
        Ok((_, first)) => Ok(first),
        Err(_) => Err(Why::NoMemory),
    }
}

// Opens the end of a connection, and starts a thread for it.
fn open_connection<'s, E, R: Machine, G: Gate>(
    site: &'s Site<'s, R>,
    post: &Post<'_, G>,
    crew: &mut Crew<'s, E>,
    end_: EndId,
    connection: LinkStream,
) {
    match open_dialled(site.rt, post, crew, end_, connection.link) {
        Ok(first) => crew.start(site, end_, first, connection),
        Err(why) => {
            crew.lose(site.rt, end_, why);
            crew.part_with(site, connection);
        }
    }
}

// Does what an order says. A plan has no dial by a node that is not one of its own.
fn obey<'s, E, R: Machine, G: Gate>(
    site: &'s Site<'s, R>,
    post: &Post<'_, G>,
    crews: &mut [Crew<'s, E>],
    number: u32,
) -> Result<(), OrderRefusal> {
    let Some(dial) = site.dials.get(number as usize) else {
        return Ok(());
    };
    let place = crews
        .iter()
        .position(|crew| crew.host.name.is_same(&dial.from));
    let Some(crew) = crews.get_mut(place.unwrap_or(usize::MAX)) else {
        return Ok(());
    };
    let (port, opening) = find_peer(site, &dial.to)?;
    let end_ = begin(site, crew, &dial.to, opening)?;
    match connect_to_port(site.rt, port) {
        Ok(connection) => {
            site.note(number, connection.link);
            open_connection(site, post, crew, end_, connection);
        }
        Err(_) => crew.lose(site.rt, end_, Why::DialFailed),
    }
    Ok(())
}

// Takes orders up to the last. Those that made no `Dial` step.
fn take_all<'s, E, R: Machine, G: Gate>(
    site: &'s Site<'s, R>,
    post: &Post<'_, G>,
    orders: &Orders,
    pass: &mut TakePass,
    crews: &mut [Crew<'s, E>],
) -> Vec<OrderFault>
    requires { pass.old.table ≡ orders.now.table }
    ensures { (pass.new.table ≡ pass.old.table) × (pass.new.second ≡ pass.old.second) }
{
    let mut faults = Vec::new(site.alloc);
    for _ in site.rt.forever() {
        match orders.take(site.rt, pass) {
            Some(order) => {
                if order == LAST_ORDER {
                    break;
                }
                let number = order.0;
                if let Err(refusal) = obey(site, post, crews, number) {
                    site.keep(&mut faults, OrderFault { number, refusal });
                }
            }
            None => thread::yield_now(),
        }
    }
    faults
}

// A crew for each node, that has started nothing.
fn new_crews<'s, E, R>(
    scope: &'s Scope<'s, E>,
    site: &Site<'s, R>,
    pools: Vec<Pool>,
    mut challenges: Challenges,
) -> Vec<Crew<'s, E>> {
    let mut crews = Vec::new(site.alloc);
    for (host, pool) in site.hosts.iter().zip(pools) {
        let crew = Crew::new(site.alloc, scope, host, pool, challenges.fork(), 0);
        site.keep(&mut crews, crew);
    }
    crews
}

/// Takes orders up to the last, and does what they say. Then joins the threads that were started.
pub fn work<'s, E, R: Machine, G: Gate>(
    scope: &'s Scope<'s, E>,
    site: &'s Site<'s, R>,
    orders: &Orders,
    shift: Shift<'_, G>,
) -> Worked
    requires { shift.pass.table ≡ orders.now.table }
{
    let Shift {
        post,
        mut pass,
        pools,
        challenges,
    } = shift;
    let mut crews = new_crews(scope, site, pools, challenges);
    let faults = take_all(site, &post, orders, &mut pass, crews.as_mut_slice());
    let mut rests = Vec::new(site.alloc);
    for crew in crews {
        site.keep(&mut rests, crew.join(site));
    }
    Worked { rests, faults }
}
