//! The system from which a run gets its sockets, threads, clock and random bytes, with its faults.

use crate::setting::{number, word};
use dist_locked::{Gate, Moment};
use std::io::ErrorKind;
use std::net::{Net, Shutdown, SocketAddr, TcpListener, TcpStream};
use std::random::RandomSource;
use std::sync::Wait;
use std::sync::atomic::{AtomicUsize, Ordering};
use std::thread::Threads;
use std::time::{Clock, Duration};
use std::{io, thread};

/// A system with a fault, which is a word, and for some of them a number. The port mapper listens first, then the nodes do. Each node makes
/// one connection to the port mapper, and each dial one to it and one to its peer.
///
/// - `random`: there are no random bytes;
/// - `listener 1`, `connection 1`: the listener, or the connection, with this number is refused;
/// - `cuts`: the first three connections to nodes are cut: both ways, what the dialling node sends, what it receives;
/// - `holds`: no end gets the event of its connection before both workers have a connection;
/// - `overtakes`: the second worker waits with its connection for that of the first; the first waits with its own until the second has
///   given its node the event. A worker that waits in vain gives up its connection;
/// - `shut 0`, `shut 1`: both workers stop before the step of their connection, or after it;
/// - any other word: none.
#[derive(Drop)]
pub struct FaultySystem<'a, R> {
    rt: &'a R,
    fault: &'a str,
    // The number behind the word; no other number where there is none.
    place: usize,
    mapper_port: AtomicUsize,
    listeners: AtomicUsize,
    connections: AtomicUsize,
    to_nodes: AtomicUsize,
    held: AtomicUsize,
    passed: AtomicUsize,
}

impl<'a, R> FaultySystem<'a, R> {
    /// This system, with this fault.
    pub fn new(rt: &'a R, fault: &'a str) -> FaultySystem<'a, R> {
        FaultySystem {
            rt,
            fault: word(fault, 0),
            place: number(word(fault, 1), u64::MAX) as usize,
            mapper_port: AtomicUsize::new(0),
            listeners: AtomicUsize::new(0),
            connections: AtomicUsize::new(0),
            to_nodes: AtomicUsize::new(0),
            held: AtomicUsize::new(0),
            passed: AtomicUsize::new(0),
        }
    }

    // Whether the next of these is the one that is refused.
    fn refuses(&self, fault: &str, count: &AtomicUsize) -> bool {
        next(count) == self.place && self.fault == fault
    }

    // Cuts a connection to this port, if it is one of the first three to nodes.
    fn cut(&self, socket: &TcpStream, port: u16) -> io::Result<()> {
        if usize::from(port) == self.mapper_port.load(Ordering::SeqCst) {
            return Ok(());
        }
        match next(&self.to_nodes) {
            0 => socket.shutdown(Shutdown::Both),
            1 => socket.shutdown(Shutdown::Write),
            2 => socket.shutdown(Shutdown::Read),
            _ => Ok(()),
        }
    }
}

// Counts one more, and returns how many there were before.
fn next(count: &AtomicUsize) -> usize {
    count.fetch_add(1, Ordering::SeqCst)
}

fn refusal<T>() -> io::Result<T> {
    Err(io::Error::from(ErrorKind::ConnectionRefused))
}

impl<'a, R: Net<Listener = TcpListener, Stream = TcpStream>> Net for FaultySystem<'a, R> {
    type Stream = TcpStream;

    type Listener = TcpListener;

    fn bind(&self, address: SocketAddr) -> io::Result<TcpListener> {
        if self.refuses("listener", &self.listeners) {
            return refusal();
        }
        let listener = self.rt.bind(address)?;
        if self.listeners.load(Ordering::SeqCst) == 1 {
            let port = listener.local_addr()?.port();
            self.mapper_port.store(usize::from(port), Ordering::SeqCst);
        }
        Ok(listener)
    }

    // A run makes no connection without a limit of time.
    fn connect(&self, _address: SocketAddr) -> io::Result<TcpStream> {
        refusal()
    }

    fn connect_timeout(&self, address: SocketAddr, limit: Duration) -> io::Result<TcpStream> {
        if self.refuses("connection", &self.connections) {
            return refusal();
        }
        let socket = self.rt.connect_timeout(address, limit)?;
        if self.fault == "cuts" {
            self.cut(&socket, address.port())?;
        }
        Ok(socket)
    }
}

impl<'a, R: Threads> Threads for FaultySystem<'a, R> {}

impl<'a, R: Wait> Wait for FaultySystem<'a, R> {}

impl<'a, R: Clock> Clock for FaultySystem<'a, R> {
    fn monotonic(&self) -> io::Result<Duration> {
        self.rt.monotonic()
    }

    fn since_1970(&self) -> io::Result<Duration> {
        self.rt.since_1970()
    }

    fn sleep(&self, duration: Duration) {
        self.rt.sleep(duration);
    }
}

impl<'a, R: RandomSource> RandomSource for FaultySystem<'a, R> {
    fn fill_bytes(&self, room: &mut [u8]) -> io::Result<()> {
        if self.fault == "random" {
            return refusal();
        }
        self.rt.fill_bytes(room)
    }
}

// How often it is looked at most whether others come, so that a run also ends if the system has no thread for the other worker.
const LOOKS: u32 = 10_000_000;

// Whether this many are there, or come while it looks.
fn are_there(count: &AtomicUsize, wanted: usize, looks: u32) -> bool {
    for _ in 0..looks {
        if count.load(Ordering::SeqCst) >= wanted {
            return true;
        }
        thread::yield_now();
    }
    false
}

impl<'a, R> Gate for FaultySystem<'a, R> {
    fn at(&self, worker: u32, moment: Moment) -> bool {
        let is_before = moment == Moment::BeforeStep;
        if self.fault == "shut" {
            return is_before != (self.place == 0);
        }
        if self.fault == "holds" && is_before {
            next(&self.held);
            let _ = are_there(&self.held, 2, LOOKS);
        }
        if self.fault != "overtakes" {
            return true;
        }
        match (worker, is_before) {
            (0, true) => {
                next(&self.held);
                are_there(&self.passed, 1, LOOKS)
            }
            (1, true) => are_there(&self.held, 1, LOOKS),
            (1, false) => {
                next(&self.passed);
                true
            }
            _ => true,
        }
    }
}
