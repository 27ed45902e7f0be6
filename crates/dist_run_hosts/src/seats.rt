//! How the seats of a node are shared out.

ghost use Rattle.std.specs.Prelude.{◌≡◌, ◌<◌, ◌+◌, IfOk, vec_len};

use dist_locked::Seat;
use std::alloc::AllocError;

/// How many seats a node has.
pub const SEATS: u32 = 64;

// The seats of the accepting thread, and of the first worker. The second worker has the other 16.
const OF_ACCEPTING: usize = 32;

const OF_FIRST_WORKER: usize = 16;

/// Seats of one thread: one for its own steps, and one for each thread that it starts.
#[derive(Drop)]
pub struct Pool {
    pub own: Seat,
    pub free: Vec<Seat>,
}

/// The seats of a node: 32 for the thread that accepts, 16 for each worker.
#[derive(Drop)]
pub struct Shares {
    pub accepting: Pool,
    pub first: Pool,
    pub second: Pool,
}

// A pool of these seats, the last of which is the thread's own.
fn pool_of(seats: Vec<Seat>) -> Pool
    // Each thread gets some of the 64.
    requires { 0 < vec_len seats }
    ensures { vec_len result.free + 1 ≡ vec_len seats }
{
    let mut free = seats;
    match free.pop() {
        Some(own) => Pool { own, free },
        None => unreachable!(),
    }
}

/// Shares out the seats of a node.
pub fn share_out(seats: Vec<Seat>) -> Result<Shares, AllocError>
    // A locked node is made with that many seats.
    requires { vec_len seats ≡ 64 }
    ensures { IfOk result (λ shares. (vec_len shares.accepting.free ≡ 31) × (vec_len shares.first.free ≡ 15) × (vec_len shares.second.free ≡ 15)) }
{
    let mut accepting = seats;
    let mut first = accepting.split_off(OF_ACCEPTING)?;
    let second = first.split_off(OF_FIRST_WORKER)?;
    Ok(Shares {
        accepting: pool_of(accepting),
        first: pool_of(first),
        second: pool_of(second),
    })
}
