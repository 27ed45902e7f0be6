//! Waits of several turns.

ghost use Rattle.std.specs.{Prelude.◌≡◌, Prelude.◌≤◌, Prelude.◌*◌, Prelude.◌/◌, Prelude.◌^◌, Prelude.◌-◌, Prelude.min, Prelude.pos, Duration.as_nanos};
ghost use Rattle.dist_run_hosts.specs.Waits.{turns_of_wait};

use dist_program::one_turn;
use libc::types::pollfd;
use std::os::fd::RawFd;
use std::thread;
use std::time::{Clock, Duration, Instant};

const TURN_MILLISECONDS: i32 = 10;

const TURN_NANOSECONDS: u128 = 10_000_000;

/// The most turns of one wait of a thread that has more to look after than its descriptor: a second. So it sees within a second that
/// its end is gone, or that a thread which it has to join has ended. Our own choice.
pub const TURNS_AT_ONCE: usize = 100;

/// The most turns of any wait: no nodes file has more.
pub const MOST_TURNS: usize = 1_000_000;

/// How many turns one wait for bytes takes, where it was quiet for so many turns and so many are left: as many as it was quiet, so
/// that a wait at most doubles the silence, but one at least; at most a second, and no more than are left. Our own choice.
pub fn turns_of_wait(quiet: usize, left: usize) -> usize
    ensures { result ≡ turns_of_wait quiet left }
{
    quiet.max(1).min(left).min(TURNS_AT_ONCE)
}

fn milliseconds_of(turns: usize) -> i32
    // no wait takes more turns
    requires { turns ≤ 1000000 }
    ensures { result ≡ pos (turns * 10) }
{
    turns as i32 * TURN_MILLISECONDS
}

// How many whole turns there are in a time.
fn turns_in(time: Duration) -> usize
    ensures { result ≡ min (as_nanos time / 10000000) (2 ^ 64 - 1) }
{
    usize::try_from(time.as_nanos() / TURN_NANOSECONDS).unwrap_or(usize::MAX)
}

// How many of these turns have passed since then: all where the clock does not say.
fn turns_since<C: Clock>(clock: &C, start: &Instant, turns: usize) -> usize
    ensures { result ≤ turns }
{
    match start.elapsed(clock) {
        Ok(time) => turns_in(time).min(turns),
        Err(_) => turns,
    }
}

// Waits until something can be read at a descriptor, for so many turns at most. Where the system does not wait, a turn passes.
fn poll_input<C: Clock>(clock: &C, descriptor: RawFd, turns: usize)
    // no wait takes more turns
    requires { turns ≤ 1000000 }
{
    let mut waits = [pollfd {
        fd: descriptor,
        events: libc::net::POLLIN,
        revents: 0,
    }];
    if libc::net::poll(&mut waits, milliseconds_of(turns)) < 0 {
        thread::sleep(clock, one_turn());
    }
}

/// Waits until something can be read at a descriptor, for so many turns at most. Returns how many of them passed: fewer than all
/// only where something came, or the descriptor's socket was shut.
pub fn wait_for_input<C: Clock>(clock: &C, descriptor: RawFd, turns: usize) -> usize
    // no wait takes more turns
    requires { turns ≤ 1000000 }
    ensures { result ≤ turns }
{
    let Ok(start) = Instant::now(clock) else {
        return turns;
    };
    poll_input(clock, descriptor, turns);
    turns_since(clock, &start, turns)
}
