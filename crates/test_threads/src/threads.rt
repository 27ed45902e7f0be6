//! Two threads at one node under a lock, where each makes steps of its own and drives an end, and at one registry under a lock.
//!
//! A silent peer delays nothing: no lock is held while a stream is read.

use crate::seats::{closing, node_b_after};
use crate::setting::{CHALLENGE, Rising, bytes_of};
use dist_core::{Event, Still};
use dist_drive::{FaultStream, Heard, Mapper, Stream, Took};
use dist_epmd::{Answer, NodeInfo, Registry, Request};
use dist_locked::{LockedNode, LockedRegistry, Seat, SharedMapper, drive_end, settle};
use dist_peers::EndId;
use std::alloc::Global;
use std::sync::Wait;
use std::test::*;
use std::thread;
use std::time::{Clock, Duration};

// Gives the node a hundred connections. Returns after how many of these steps the end was pending.
fn come<R: Wait>(rt: &R, node: &LockedNode, seat: &mut Seat) -> u64 {
    let mut pending = 0u64;
    for link in 0..100u64 {
        if let Ok((_, reply)) = node.step(rt, seat, &Event::Incoming { link }, 0) {
            let is_pending = node.still(rt, reply.end_) == Still::Pending;
            pending = pending.saturating_add(is_pending as u64);
        }
    }
    pending
}

// A stream in memory. When it has no bytes, its read waits until end 1 is up, and looks at most a thousand times.
#[derive(Drop)]
struct Patient<'a, R: Wait + Clock> {
    rt: &'a R,
    node: &'a LockedNode,
    looks: u64,
    inner: FaultStream,
}

impl<'a, R: Wait + Clock> Stream for Patient<'a, R> {
    ghost meaning = { λ s. ⟦<FaultStream as Stream>⟧.meaning s.inner };

    fn read(&mut self, room: &mut [u8]) -> Heard {
        if self.inner.unread().is_empty() {
            self.looks = looks_until_up(self.rt, self.node);
        }
        self.inner.read(room)
    }

    fn write(&mut self, bytes: &[u8]) -> Took {
        self.inner.write(bytes)
    }
}

fn looks_until_up<R: Wait + Clock>(rt: &R, node: &LockedNode) -> u64 {
    for looks in 0..1000u64 {
        if node.still(rt, EndId(1)) == Still::Up {
            return looks;
        }
        thread::sleep(rt, Duration::from_millis(10));
    }
    1000
}

// Drives an end, whose peer sends this, for three turns. Returns the seat, and how often the stream looked.
fn drive_patiently<R: Wait + Clock>(
    rt: &R,
    alloc: Global,
    node: &LockedNode,
    seat: Seat,
    end_: EndId,
    said: Vec<u8>,
) -> (Seat, u64) {
    let mut stream = Patient {
        rt,
        node,
        looks: 0,
        inner: FaultStream::new(alloc, said),
    };
    let mut draws = Rising(CHALLENGE);
    let driven = drive_end(rt, alloc, node, seat, &mut stream, &mut draws, end_, &[], 3);
    let (seat, _) = settle(rt, node, end_, driven);
    (seat, stream.looks)
}

// What a thread does, which has the seat meanwhile: it gives the node a hundred connections, and then drives an end. Returns the seat, after
// how many of these steps their end was pending, and how often the stream looked.
fn work<R: Wait + Clock>(
    rt: &R,
    alloc: Global,
    node: &LockedNode,
    mut seat: Seat,
    end_: EndId,
    said: Vec<u8>,
) -> (Seat, u64, u64) {
    let pending = come(rt, node, &mut seat);
    let (seat, looks) = drive_patiently(rt, alloc, node, seat, end_, said);
    (seat, pending, looks)
}

// Right after each connection its end was pending. The stream of end 0, whose peer is silent, sees that end 1 has come up, whose peer
// sends a whole handshake, and then ends. Each line of the history has its receipt.
#[test]
fn silent_peer(rt: HostRuntime) {
    let alloc = rt.alloc();
    let Some(mut side) = node_b_after(&rt, alloc, "b incoming, b incoming") else {
        panic!(rt; "no memory");
    };
    let (Some(two), Some(one)) = (side.seats.pop(), side.seats.pop()) else {
        panic!(rt; "no seats");
    };
    let Some(said) = bytes_of(alloc, "name+reply") else {
        panic!(rt; "no memory");
    };
    let (node, unsaid) = (&side.node, Vec::new(alloc));
    let ((one, ones, looks), (two, twos, _)) = thread::join(
        &rt,
        move || work(&rt, alloc, node, one, EndId(0), unsaid),
        move || work(&rt, alloc, node, two, EndId(1), said),
    );
    let _ = side.seats.push(one);
    let _ = side.seats.push(two);
    assert!(rt; (ones, twos) == (100, 100) && looks < 1000);
    assert!(rt; closing(side) == Some([205, 1, 1, 201]));
}

// Registers node a on this connection. Returns the result, and the creation.
fn register_a<R: Wait>(
    rt: &R,
    alloc: Global,
    shared: &LockedRegistry,
    conn: u64,
) -> Option<(u8, u32)> {
    let request = Request::Alive(NodeInfo::of_node(alloc, b"a", 9001, false).ok()?);
    match SharedMapper::new(rt, shared).ask(alloc, conn, &request) {
        Ok(
            Answer::AliveX {
                result_code,
                creation,
            },
        ) => Some((result_code, creation)),
        _ => None,
    }
}

#[test]
fn two_threads_register(rt: HostRuntime) {
    let alloc = rt.alloc();
    let registry = LockedRegistry::new(Registry::new(alloc, 4369, 1));
    let shared = &registry;
    let noted = thread::join(
        &rt,
        move || register_a(&rt, alloc, shared, 1),
        move || register_a(&rt, alloc, shared, 2),
    );
    // The connection whose node was registered, if the other was refused.
    let first = match noted {
        (Some((0, 1)), Some((1, 0))) => 1,
        (Some((1, 0)), Some((0, 1))) => 2,
        _ => 0,
    };
    SharedMapper::new(&rt, shared).closed(first);
    let third = register_a(&rt, alloc, shared, 3);
    assert!(rt; first != 0 && third == Some((0, 2)));
}
