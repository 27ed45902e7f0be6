//! Monitoring clients are answered at a port of their own, on the same thread, which never waits for one.

use crate::page::answer_to;
use crate::spares::Spares;
use dist_epmd_server::{Server, other_of};
use dist_names::ByteString;
use dist_stream::{Heard, SocketStream, Stream};
use mio::net::TcpListener;
use mio::{Events, Token};
use std::alloc::{AllocError, Global};
use std::io::{self, ErrorKind};
use std::net::{self, Net, SocketAddr};
use std::os::fd::AsRawFd;

// The most monitoring clients at once: a later one takes the place of the oldest. Our own choice.
const SEATS: usize = 8;

// After how many seconds the connection of a client is closed that has not sent its request. Our own choice.
const SECONDS: u64 = 5;

// The most connections that are accepted in one round.
const ACCEPTS: usize = 16;

// The most reads from one connection before the next is served.
const READS: usize = 16;

// A monitoring client: its connection, and what it sent. After the answer, further bytes are read and dropped: if bytes stayed unread,
// the system would reset the connection, and the answer would be lost.
#[derive(Drop)]
struct Watcher {
    stream: SocketStream,
    place: usize,
    since: u64,
    head: ByteString,
    is_answered: bool,
    is_over: bool,
}

impl Watcher {
    // Takes a piece of the request, and answers it, once it is whole, in one write. What the socket does not take at once is lost, so
    // that nothing waits.
    fn take(&mut self, alloc: Global, server: &Server, piece: &[u8]) -> Result<(), AllocError> {
        if self.is_answered {
            return Ok(());
        }
        self.head.append(piece)?;
        if let Some(answer) = answer_to(alloc, self.head.as_slice(), server)? {
            self.is_answered = true;
            if !answer.is_empty() {
                let _ = self.stream.write(answer.as_bytes());
            }
            let _ = self.stream.shut();
        }
        Ok(())
    }

    // Reads what came. Returns whether the connection stays open: not if it is over, or memory ran out.
    fn hear(&mut self, alloc: Global, server: &Server, room: &mut [u8]) -> bool {
        for _ in 0..READS {
            if room.is_empty() {
                return false;
            }
            match self.stream.read(room) {
                Heard::Quiet => return true,
                Heard::Bytes(0) | Heard::Failed => return false,
                Heard::Bytes(count) => {
                    if self.take(alloc, server, &room[..count]).is_err() {
                        return false;
                    }
                }
            }
        }
        true
    }
}

/// A port at which the figures are served, and its clients.
#[derive(Drop)]
pub struct Monitor {
    alloc: Global,
    listener: TcpListener,
    seats: Vec<Watcher>,
    // One more than the free seats, so that the port mapper's clients can't take these descriptors.
    spares: Spares,
    // Whether connections may wait at the listener.
    waits: bool,
}

impl Monitor {
    /// Listens at this place. An error is the system's, for example if the port is taken.
    pub fn new(net: &impl Net, alloc: Global, place: SocketAddr) -> io::Result<Monitor> {
        let listener = TcpListener::bind(net, place)?;
        let mut spares = Spares::new(alloc, listener.as_raw_fd());
        spares.hold(SEATS + 1);
        Ok(Monitor {
            alloc,
            listener,
            seats: Vec::new(alloc),
            spares,
            waits: false,
        })
    }

    /// Whether a descriptor is left for a client of the port mapper.
    pub fn leaves_one(&self) -> bool {
        self.spares.is_one_left()
    }

    /// Asks the server to report connections to the listener. `false` if the system refuses.
    pub fn watch(&self, server: &Server) -> bool {
        server.watch_other(self.listener.as_raw_fd(), 0)
    }

    // Makes room for one more client, and returns a free place, counted from 1.
    fn find_place(&mut self) -> Option<usize> {
        if self.seats.len() >= SEATS {
            let _ = self.seats.remove(0);
        }
        (1..=SEATS).find(|place| self.seats.iter().all(|seat| seat.place != *place))
    }

    // Takes in a connection. If that fails, the connection is closed.
    fn admit(&mut self, server: &Server, stream: net::TcpStream, now: u64) {
        let Some(place) = self.find_place() else {
            return;
        };
        if !server.watch_other(stream.as_raw_fd(), place) {
            return;
        }
        let _ = self.seats.push(Watcher {
            stream: SocketStream::new(stream),
            place,
            since: now,
            head: ByteString::new(self.alloc),
            is_answered: false,
            is_over: false,
        });
    }

    // Accepts connections that wait, with the descriptors that were kept back for them.
    fn accept_some(&mut self, server: &Server, now: u64) {
        self.spares.release();
        for _ in 0..ACCEPTS {
            match self.listener.accept() {
                Ok((stream, _from)) => self.admit(server, net::TcpStream::from(stream), now),
                Err(error) => {
                    self.waits = error.kind() != ErrorKind::WouldBlock;
                    return;
                }
            }
        }
    }

    // Serves the client at a place.
    fn attend(&mut self, server: &Server, place: usize, room: &mut [u8]) {
        let alloc = self.alloc;
        for seat in &mut self.seats {
            if seat.place == place {
                seat.is_over = !seat.hear(alloc, server, room);
            }
        }
    }

    // Serves what one token stands for: the listener, or a client.
    fn serve_token(&mut self, server: &Server, token: Token, room: &mut [u8]) {
        match other_of(token) {
            Some(0) => self.waits = true,
            Some(place) => self.attend(server, place, room),
            None => {}
        }
    }

    /// Serves what is ready, in this second, and closes connections without a request in time. It keeps back as many descriptors as
    /// further clients may need.
    pub fn serve(&mut self, server: &Server, events: &Events, room: &mut [u8], now: u64) {
        for event in events.iter() {
            self.serve_token(server, event.token(), room);
        }
        self.seats.retain(|seat| !seat.is_over && now.saturating_sub(seat.since) < SECONDS);
        if self.waits {
            self.accept_some(server, now);
        }
        self.spares
            .hold((SEATS + 1).saturating_sub(self.seats.len()));
    }
}
