//! The loop: the port mapper, and beside it its log and the monitoring port.

use crate::addresses::ClientAddresses;
use crate::lines::Round;
use crate::log::Log;
use crate::moment::TimeOfDay;
use crate::monitor::Monitor;
use crate::standard_error::StandardError;
use dist_epmd_server::{EVENTS, ROOM, Server, serve_ready};
use mio::Events;
use std::alloc::Global;
use std::io;
use std::sync::Wait;
use std::time::{Clock, Duration, Instant};

// How long it waits if nothing happens: late clients are looked for once a second.
const SECONDS: u64 = 1;

// The most events that the server keeps for the log in one round: two for each of the usual 4,096 clients, so that a flood of one kind
// hides no other kind. Our own choice.
const MOST_EVENTS: usize = 8192;

/// What runs beside the port mapper, if it is wanted: its log, and the monitoring port.
#[derive(Drop)]
pub struct Beside {
    pub log: Option<Log>,
    pub addresses: ClientAddresses,
    pub moment: TimeOfDay,
    pub monitor: Option<Monitor>,
    pub standard_error: StandardError,
}

// Logs what happened in a round, in this second.
fn log_round<R: Clock>(rt: &R, alloc: Global, server: &mut Server, beside: &mut Beside, now: u64) {
    let Some(log) = &mut beside.log else {
        return;
    };
    beside.addresses.note(server.clients(), now);
    let round = Round {
        second: now,
        time: beside.moment.stamp(rt, alloc),
        addresses: beside.addresses.table(),
    };
    log.write_events(alloc, &mut beside.standard_error, &round, server.clients());
    server.forget_events();
    beside.addresses.forget(server.clients());
}

/// Serves until the system fails to report what is ready, and returns its error.
pub fn serve<R: Wait + Clock>(
    rt: &R,
    alloc: Global,
    server: &mut Server,
    beside: &mut Beside,
) -> io::Result<()> {
    let start = Instant::now(rt)?;
    let mut events = Events::with_capacity(alloc, EVENTS)?;
    let mut room = vec![in alloc; 0u8; ROOM]?;
    if beside.log.is_some() {
        server.keep_events(MOST_EVENTS)?;
    }
    if let Some(monitor) = &beside.monitor {
        let _ = monitor.watch(server);
    }
    for _ in rt.forever() {
        server.wait(&mut events, Duration::from_secs(SECONDS))?;
        let now = start.elapsed(rt)?.as_secs();
        serve_ready(server, &events, &mut room, now);
        // Before the sweep, which forgets whether connections wait that could not be accepted.
        if let Some(monitor) = &mut beside.monitor {
            monitor.serve(server, &events, &mut room, now);
        }
        server.sweep(now);
        log_round(rt, alloc, server, beside, now);
    }
    Ok(())
}
