//! The sockets of a port mapper and their clients.

ghost use Rattle.std.specs.Prelude.{[], length, ◌≡◌, ◌<◌, ◌≤◌, ◌-◌, not, filter, nat_le, OnOk, OnErr};
ghost use Rattle.dist_epmd_clients.specs.{Clients.registrations_of, Clients.clients_of, Clients.IsSame, Journal.HasEvents, Reporting.counts_of};
ghost use Rattle.dist_epmd_clients.specs.{Reporting.events_of, Reporting.journal_of, Sweeping.is_late};
ghost use Rattle.dist_epmd_server.specs.Serving.{clients_at, owing_at, most_events, most_of, seconds_of, swept_at, ComesTo};
ghost use Rattle.dist_epmd_server.specs.{Attending.Attends, Owed.since_of, Owing.all_owed};

use crate::attending::attend;
use crate::owing::Owing;
use crate::places::{Newcomer, evict_oldest, take_in};
use dist_epmd_clients::Clients;
use dist_stream::{SocketStream, Stream};
use mio::net::{TcpListener, TcpStream};
use mio::unix::SourceFd;
use mio::{Interest, Poll, Token};
use std::alloc::{AllocError, Global};
use std::io::{self, ErrorKind};
use std::net::{self, IpAddr, Net};
use std::os::fd::AsRawFd;

// The most connections that are accepted at one listener before the others are looked at.
const ACCEPTS: usize = 256;

// The most listeners.
const LISTENERS: usize = 16;

// The most sockets that are watched beside its own.
const OTHERS: usize = 16;

/// The limits of a port mapper.
#[derive(Clone, Copy, Debug, PartialEq, Eq)]
pub struct MapperLimits {
    /// The most clients at once, with those that have left and are owed something.
    pub clients: usize,
    /// After how many seconds a client is closed that has not asked, or does not read its answer.
    pub seconds: u64,
}

/// A port mapper at its sockets.
#[derive(Drop)]
pub struct Server {
    alloc: Global,
    pub(crate) poll: Poll,
    pub(crate) listeners: Vec<TcpListener>,
    pub(crate) clients: Clients<SocketStream>,
    // What is sent to those that have left.
    pub(crate) owing: Owing<SocketStream>,
    limits: MapperLimits,
    // Connections may wait at a listener, and none could be accepted.
    stuck: bool,
    // When the clients were looked through for late ones.
    swept: u64,
    // At the last wait one socket alone was ready, beside the newest client's.
    pub(crate) is_alone: bool,
    // The client that came last, where the system does not keep its socket among those that it watches.
    pub(crate) newest: Option<u64>,
    // At the last wait that client's socket was ready.
    pub(crate) is_newest_ready: bool,
    // The listener at which that client came, where connections may wait that the system does not report again.
    pub(crate) unsure: Option<usize>,
}

// Whether a client at this address is on this host. At a socket for addresses of both kinds one of IPv4 comes as one of IPv6.
fn is_local(stream: &TcpStream, from: IpAddr) -> bool {
    from.to_canonical().is_loopback() || stream.local_addr().is_ok_and(|own| own.ip() == from)
}

// The token of a listener.
fn token_of_listener(place: usize) -> Token {
    Token(usize::MAX.saturating_sub(place))
}

// Which listener a token is of.
fn listener_of(token: Token) -> Option<usize> {
    let place = usize::MAX - token.0;
    (place < LISTENERS).then_some(place)
}

// The token of a socket that is none of the port mapper's.
fn token_of_other(place: usize) -> Token {
    Token((usize::MAX - LISTENERS).saturating_sub(place))
}

/// Which socket a token is of, where it is none of the port mapper's.
pub fn other_of(token: Token) -> Option<usize> {
    let place = (usize::MAX - LISTENERS).checked_sub(token.0)?;
    (place < OTHERS).then_some(place)
}

impl Server {
    /// A port mapper without listeners. `port` is reported to clients as its own, and `first` is the first creation.
    pub fn new(
        net: &impl Net,
        alloc: Global,
        port: u16,
        first: u32,
        limits: MapperLimits,
    ) -> io::Result<Server> {
        Ok(Server {
            alloc,
            poll: Poll::new(net)?,
            listeners: Vec::new(alloc),
            clients: Clients::new(alloc, port, first),
            owing: Owing::new(alloc),
            limits,
            stuck: false,
            swept: 0,
            is_alone: false,
            newest: None,
            is_newest_ready: false,
            unsure: None,
        })
    }

    /// Its clients, how often what happened to them, and the events that wait for whoever reads them.
    pub fn clients(&self) -> &Clients<SocketStream>
        ensures { result.now ≡ clients_at self.now }
    {
        &self.clients
    }

    /// On how many connections something is owed to a client that has left.
    pub fn owing(&self) -> usize
        ensures { result ≡ length (all_owed (owing_at self.now)) }
    {
        self.owing.len()
    }

    /// Whether connections may wait that could not be accepted: it has no descriptors or no memory left.
    pub fn is_stuck(&self) -> bool {
        self.stuck
    }

    /// From now on so many events may wait for whoever reads them. Without this call none does. Their memory is taken now; after
    /// an `Err` as many may wait as before.
    pub fn keep_events(&mut self, most: usize) -> Result<(), AllocError>
        ensures ok { OnOk result (most_events self.new ≡ most) }
        ensures err { OnErr result (most_events self.new ≡ most_events self.old) }
        ensures events { events_of (clients_at self.new) ≡ events_of (clients_at self.old) }
        ensures counts { counts_of (clients_at self.new) ≡ counts_of (clients_at self.old) }
        ensures clients { IsSame (clients_at self.old) (clients_at self.new) }
        ensures owing { owing_at self.new ≡ owing_at self.old }
    {
        self.clients.keep_events(most)
    }

    /// Keeps no event that waits: they were read. As many may wait as before.
    pub fn forget_events(&mut self)
        ensures journal { HasEvents [] (journal_of (clients_at self.old)) (journal_of (clients_at self.new)) }
        ensures clients { IsSame (clients_at self.old) (clients_at self.new) }
        ensures owing { owing_at self.new ≡ owing_at self.old }
    {
        self.clients.forget_events();
    }

    // Asks to be notified when a socket is ready for this. Returns whether the system does so.
    fn register(&self, fd: i32, token: Token, interest: Interest) -> bool {
        let registry = self.poll.registry();
        registry
            .register(&mut SourceFd(&fd), token, interest)
            .is_ok()
    }

    // Asks to be notified again.
    fn reregister(&self, fd: i32, token: Token, interest: Interest) {
        let registry = self.poll.registry();
        let _ = registry.reregister(&mut SourceFd(&fd), token, interest);
    }

    /// Asks to be notified when a socket is ready to be read that is none of its own: `place` tells it from others.
    pub fn watch_other(&self, fd: i32, place: usize) -> bool {
        self.register(fd, token_of_other(place), Interest::READABLE)
    }

    /// Listens at one more socket, which does not block.
    pub fn add_listener(&mut self, mut listener: TcpListener) -> io::Result<()> {
        let place = self.listeners.len();
        if place >= LISTENERS {
            return Err(io::Error::from(ErrorKind::InvalidInput));
        }
        let token = token_of_listener(place);
        self.poll
            .registry()
            .register(&mut listener, token, Interest::READABLE)?;
        self.listeners.push(listener)?;
        Ok(())
    }

    // Asks to be notified again of a listener at which connections may wait.
    pub(crate) fn rearm(&self, place: usize) {
        if let Some(listener) = self.listeners.get(place) {
            let token = token_of_listener(place);
            self.reregister(listener.as_raw_fd(), token, Interest::READABLE);
        }
    }

    // Takes a connection in. Where all places are taken, the oldest client that has not asked makes room; where there is
    // none, the new one is closed.
    fn admit(&mut self, stream: TcpStream, from: IpAddr, now: u64)
        ensures { ComesTo now (most_of self.old) (clients_at self.old) (clients_at self.new) (owing_at self.old) (owing_at self.new) }
    {
        let local = is_local(&stream, from);
        let fd = stream.as_raw_fd();
        let stream = SocketStream::new(net::TcpStream::from(stream));
        let newcomer = Newcomer {
            stream,
            is_local: local,
            second: now,
        };
        let most = self.limits.clients;
        let (clients, owing) = (&mut self.clients, &mut self.owing);
        let Some(conn) = take_in(clients, owing, self.alloc, newcomer, most) else {
            return;
        };
        if self.is_alone && self.newest.is_none() {
            self.newest = Some(conn);
        } else if !self.watch(fd, conn, Interest::READABLE) {
            let _ = self.clients.close(conn);
        }
    }

    // Asks to be notified when a connection is ready for this. Returns whether the system does so.
    pub(crate) fn watch(&self, fd: i32, conn: u64, interest: Interest) -> bool {
        self.register(fd, Token(conn as usize), interest)
    }

    // The socket of a connection, and what it is to be ready for: to be read where its client is here, to be written where
    // something is owed on it.
    pub(crate) fn socket_of(&self, conn: u64) -> Option<(i32, Interest)> {
        if let Some(stream) = self.clients.stream(conn) {
            return Some((stream.get_ref().as_raw_fd(), Interest::READABLE));
        }
        let stream = self.owing.stream(conn)?;
        Some((stream.get_ref().as_raw_fd(), Interest::WRITABLE))
    }

    // None was accepted, for this reason. Returns whether one more try may find a connection.
    fn recover(&mut self, kind: ErrorKind) -> bool {
        match kind {
            ErrorKind::WouldBlock => false,
            ErrorKind::Interrupted | ErrorKind::ConnectionAborted => true,
            // No descriptor is left, or no memory.
            _ => {
                let has_room = evict_oldest(&mut self.clients, &mut self.owing);
                self.stuck = self.stuck || !has_room;
                has_room
            }
        }
    }

    // Accepts the next connection that waits at a listener. Returns whether one more try may find another.
    fn accept_next(&mut self, place: usize, now: u64) -> bool {
        let Some(listener) = self.listeners.get(place) else {
            return false;
        };
        match listener.accept() {
            Ok((stream, from)) => {
                self.admit(stream, from.ip(), now);
                true
            }
            Err(error) => self.recover(error.kind()),
        }
    }

    // How many connections are accepted at a listener before the others are looked at. A try that finds none costs the system as
    // much as one that finds one. So where nothing else is ready, it is one connection, and no such try: what waits behind it is
    // found by the next wait.
    fn most_accepts(&self) -> usize {
        if self.is_alone { 1 } else { ACCEPTS }
    }

    // Accepts what waits at a listener. A single connection is that of the newest client from then on: most ask at once and
    // leave, and the system need not keep their sockets. Whether others wait behind it is looked at with it.
    pub(crate) fn accept_all(&mut self, place: usize, now: u64) {
        self.release_newest();
        self.rearm_unsure();
        for _ in 0..self.most_accepts() {
            if !self.accept_next(place, now) {
                return;
            }
        }
        self.unsure = Some(place);
        if self.newest.is_none() {
            self.rearm_unsure();
        }
    }

    // Does what is to be done for a connection that is ready. Returns whether it is to be watched again.
    pub(crate) fn attend(&mut self, conn: u64, room: &mut [u8], now: u64) -> bool
        ensures { Attends ⟦<SocketStream as Stream>⟧.meaning conn now
            (clients_at self.old) (clients_at self.new) (owing_at self.old) (owing_at self.new) result }
    {
        let (clients, owing) = (&mut self.clients, &mut self.owing);
        attend(clients, owing, self.alloc, conn, room, now)
    }

    // Serves a client among what is ready.
    pub(crate) fn serve_client(&mut self, token: Token, room: &mut [u8], now: u64) {
        let conn = token.0 as u64;
        if listener_of(token).is_none()
            && other_of(token).is_none()
            && self.attend(conn, room, now)
            && let Some((fd, interest)) = self.socket_of(conn)
        {
            self.reregister(fd, token, interest);
        }
    }

    // Serves a listener among what is ready.
    pub(crate) fn serve_listener(&mut self, token: Token, now: u64) {
        if let Some(place) = listener_of(token) {
            self.accept_all(place, now);
        }
    }

    // Looks at the listeners again where none could be accepted.
    fn wake(&mut self)
        ensures clients { clients_at self.new ≡ clients_at self.old }
        ensures owing { owing_at self.new ≡ owing_at self.old }
    {
        if !self.stuck {
            return;
        }
        self.stuck = false;
        for place in 0..LISTENERS {
            self.rearm(place);
        }
    }

    /// Once a second: closes whoever is late, and looks at the listeners again where none could be accepted.
    pub fn sweep(&mut self, now: u64)
        ensures clients { swept_at self.old < now →
            clients_of (clients_at self.new) ≡ filter (λ e. not (is_late now (seconds_of self.old) e.1)) (clients_of (clients_at self.old)) }
        ensures owed { swept_at self.old < now →
            all_owed (owing_at self.new) ≡ filter (λ e. not (nat_le (seconds_of self.old) (now - since_of e.1))) (all_owed (owing_at self.old)) }

        // A registration is never late.
        ensures registry { registrations_of (clients_at self.new) ≡ registrations_of (clients_at self.old) }

        ensures again { now ≤ swept_at self.old → (clients_at self.new ≡ clients_at self.old) × (owing_at self.new ≡ owing_at self.old) }
    {
        if now <= self.swept {
            return;
        }
        self.swept = now;
        let seconds = self.limits.seconds;
        self.clients.drop_late(now, seconds);
        self.owing.drop_late(now, seconds);
        self.wake();
    }
}
