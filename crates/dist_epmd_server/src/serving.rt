//! The loop.

use crate::server::Server;
use mio::Events;
use std::alloc::Global;
use std::io;
use std::sync::Wait;
use std::sync::atomic::{AtomicBool, Ordering};
use std::time::{Clock, Duration, Instant};

/// The most events that are taken from the system at once.
pub const EVENTS: usize = 1024;

/// The most bytes of one read: a request and its length fit.
pub const ROOM: usize = 4096;

/// One round, in this second: the clients among what is ready, then the one that came last, then the listeners. Clients come first, so
/// that the end of a connection is noticed before a later connection asks. What is late is closed by `Server::sweep`.
pub fn serve_ready(server: &mut Server, events: &Events, room: &mut [u8], now: u64) {
    for event in events.iter() {
        server.serve_client(event.token(), room, now);
    }
    server.serve_newest(room, now);
    server.serve_unsure(now);
    for event in events.iter() {
        server.serve_listener(event.token(), now);
    }
}

/// Serves until it is asked to stop. Where nothing happens it waits for `most`: it takes that long to see that it is asked to
/// stop, or that a client is late. It returns an `Err` where the system does not report what is ready, or memory runs out at
/// the start.
pub fn serve<R: Wait + Clock>(
    rt: &R,
    alloc: Global,
    server: &mut Server,
    most: Duration,
    stop: &AtomicBool,
) -> io::Result<()> {
    let start = Instant::now(rt)?;
    let mut events = Events::with_capacity(alloc, EVENTS)?;
    let mut room = vec![in alloc; 0u8; ROOM]?;
    for _ in rt.forever() {
        if stop.load(Ordering::SeqCst) {
            break;
        }
        server.wait(&mut events, most)?;
        let now = start.elapsed(rt)?.as_secs();
        serve_ready(server, &events, &mut room, now);
        server.sweep(now);
    }
    Ok(())
}
