//! The thread of a node that accepts connections.

use crate::crew::Crew;
use crate::machine::Machine;
use crate::site::Site;
use dist_core::Event;
use dist_run_hosts::{Challenges, Host, LinkStream, Pool, Rest, accept};
use std::sync::atomic::Ordering;
use std::thread::Scope;

// Gives the node a connection that has come, and starts a thread for it.
fn take_in<'s, E, R: Machine>(
    site: &'s Site<'s, R>,
    crew: &mut Crew<'s, E>,
    connection: LinkStream,
) {
    let link = connection.link;
    match crew.step(site.rt, &Event::Incoming { link }) {
        Ok((end_, nothing)) => crew.start(site, end_, nothing, connection),
        Err(_) => crew.part_with(site, connection),
    }
}

// Accepts until as many turns in a row were quiet as the plan says, or until the run has failed. A connection for which there is
// no place, also where a stranger gives way, is closed, and nothing reports it.
fn fill_crew<'s, E, R: Machine>(site: &'s Site<'s, R>, crew: &mut Crew<'s, E>, places: usize) {
    let mut quiet = 0usize;
    for _ in site.rt.forever() {
        if quiet >= site.turns || site.failed.load(Ordering::SeqCst) {
            break;
        }
        let passed = crew.wait(site, site.turns - quiet);
        match accept(site.rt, &crew.host.listener) {
            Some(connection) => {
                if crew.make_room(site, places) {
                    take_in(site, crew, connection);
                    quiet = 0;
                }
            }
            None => quiet = quiet.saturating_add(passed.max(1)),
        }
    }
}

/// Accepts connections until as many turns in a row were quiet as the plan says, or until the run has failed, and drives
/// each in a thread of its own.
pub fn accept_all<'s, E, R: Machine>(
    scope: &'s Scope<'s, E>,
    site: &'s Site<'s, R>,
    host: &'s Host,
    pool: Pool,
    challenges: Challenges,
) -> Rest {
    // The dials that lead here: the port mapper finds the node by its short name.
    let short = host.name.short();
    let dials = site
        .dials
        .iter()
        .filter(|dial| dial.to.short() == short)
        .count();
    let mut crew = Crew::new(site.alloc, scope, host, pool, challenges, dials);
    fill_crew(site, &mut crew, site.places.node.saturating_add(dials));
    crew.join(site)
}
