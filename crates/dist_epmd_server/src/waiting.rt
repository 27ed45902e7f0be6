//! Waits for the client that came last together with all others.

use libc::net::{POLLIN, poll};
use libc::types::pollfd;
use std::time::Duration;

/// What a wait found.
#[derive(Clone, Copy, Debug, PartialEq, Eq)]
pub struct WaitResult {
    /// The newest client's socket can be read.
    pub is_newest_ready: bool,
    /// Some of all others may be ready.
    pub are_others_ready: bool,
    /// Connections may wait at the listener.
    pub is_listener_ready: bool,
}

// A descriptor that poll does not look at.
const NONE: i32 = -1;

// Milliseconds, rounded up, so that a short wait does not spin.
fn milliseconds_of(most: Duration) -> i32 {
    let count = most.as_nanos().div_ceil(1_000_000);
    i32::try_from(count).unwrap_or(i32::MAX)
}

// A descriptor that is to be read.
fn entry_for(fd: i32) -> pollfd {
    pollfd {
        fd,
        events: POLLIN,
        revents: 0,
    }
}

/// Waits for `most` until the newest client's socket can be read, one of the set of others is ready, which the system keeps, or a
/// connection waits at this listener. They are looked at in this order: what became ready among the others before the newest is found
/// with it. Where the system does not wait, the others and the listener are to be asked.
pub fn wait_for(newest: i32, others: i32, listener: Option<i32>, most: Duration) -> WaitResult {
    let listener = listener.unwrap_or(NONE);
    let mut waits = [entry_for(newest), entry_for(others), entry_for(listener)];
    let is_over = poll(&mut waits, milliseconds_of(most)) < 0;
    WaitResult {
        is_newest_ready: !is_over && waits[0].revents != 0,
        are_others_ready: is_over || waits[1].revents != 0,
        is_listener_ready: is_over || waits[2].revents != 0,
    }
}
