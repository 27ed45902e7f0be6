//! A connection of a talk: what is read from it, and what is written on it. Each wait has a limit.

ghost use Rattle.std.specs.Prelude.{◌≡◌, IfOk, OnOk};
ghost use Rattle.distcheck.specs.Seeing.{HearsMore, EndsAt, SaysFront};

use crate::seen::PeerEnd;
use crate::talk_stream::{SocketTalk, TalkStream, stream_over};
use dist_stream::{Heard, SocketStream, Stream, Took, deadline_after, time_left};
use std::alloc::AllocError;
use std::io;
use std::net::{Net, SocketAddr, TcpListener, TcpStream};
use std::os::fd::AsRawFd;
use std::time::{Clock, Duration};

/// How many seconds a connect may take. Our own choice.
const CONNECT: u64 = 5;

/// How many milliseconds one read waits, before what came is judged again: silence is judged by time alone.
pub const WAIT: u64 = 50;

/// How many seconds one write waits, and all of a step, so that about five seconds are spent on a peer that reads nothing.
const WRITE: u64 = 1;

const WRITES: u64 = 5;

// The most bytes that are read of a connection: 1 MiB. What comes beyond stays unread. Our own choice.
const MOST: usize = 1 << 20;

// The most bytes of one read.
const PIECE: usize = 4096;

/// A connection of a talk.
#[derive(Drop)]
pub struct TalkLink<S> {
    /// Which of the talk's connections it is: 0 for a, 1 for b and so on.
    pub conn: u8,
    /// What became of the peer's side.
    pub end: PeerEnd,
    // How many bytes are read at most from now on.
    room: usize,
    /// What is read, and written on.
    pub stream: S,
}

/// One over a connection of the system.
pub type SocketLink = TalkLink<SocketTalk>;

impl<S: Stream> TalkLink<S> {
    /// Whether more may come.
    pub fn is_open(&self) -> bool {
        self.room != 0 && !self.end.is_over()
    }

    /// Waits for bytes or an end, as long as one read does, and appends what came.
    pub fn listen(&mut self, bytes: &mut Vec<u8>) -> Result<(), AllocError>
        ensures came { OnOk result (HearsMore (S.meaning self.old.stream) (S.meaning self.new.stream) bytes.old.items bytes.new.items) }
        ensures ended { OnOk result (EndsAt self.new.end (S.meaning self.new.stream)) }
    {
        let mut room = [0u8; PIECE];
        self.end = match self.stream.read(&mut room) {
            Heard::Bytes(0) => PeerEnd::Closed,
            Heard::Bytes(count) => {
                self.room = self.room.saturating_sub(count);
                bytes.extend_from_slice(&room[..count])?;
                PeerEnd::Open
            }
            Heard::Quiet => PeerEnd::Open,
            Heard::Failed => PeerEnd::Reset,
        };
        Ok(())
    }

    /// Writes these bytes, as far as five seconds allow. Returns whether all were taken.
    pub fn write<C: Clock>(&mut self, clock: &C, bytes: &[u8]) -> bool
        ensures { SaysFront (S.meaning self.old.stream) (S.meaning self.new.stream) bytes.now result }
    {
        let Ok(until) = deadline_after(clock, Duration::from_secs(WRITES)) else {
            return false;
        };
        let mut at = 0;
        for _ in 0..u64::MAX {
            if at == bytes.len() || time_left(clock, until).is_zero() {
                break;
            }
            match self.stream.write(&bytes[at..]) {
                Took::Bytes(0) | Took::Failed => break,
                Took::Bytes(count) => at += count,
                Took::Quiet => {}
            }
        }
        at == bytes.len()
    }
}

impl TalkLink<SocketTalk> {
    /// Connects to this address, within five seconds: to a peer, or to a tunnel of TLS. An error is the system's.
    pub fn open<R: Net<Listener = TcpListener, Stream = TcpStream>>(
        rt: &R,
        conn: u8,
        address: &SocketAddr,
        is_tunnelled: bool,
    ) -> io::Result<SocketLink>
        ensures { IfOk result (λ link. link.conn ≡ conn) }
    {
        let socket = TcpStream::connect_timeout(rt, address, Duration::from_secs(CONNECT))?;
        TalkLink::over(conn, socket, is_tunnelled)
    }

    /// The connection that this socket has. An error is the system's.
    pub fn over(conn: u8, socket: TcpStream, is_tunnelled: bool) -> io::Result<SocketLink>
        ensures { IfOk result (λ link. link.conn ≡ conn) }
    {
        let _ = socket.set_nodelay(true);
        let stream = SocketStream::with_turn(socket, Duration::from_secs(WRITE))?;
        let _ = stream
            .get_ref()
            .set_read_timeout(Some(Duration::from_millis(WAIT)));
        Ok(TalkLink {
            conn,
            end: PeerEnd::Open,
            room: MOST,
            stream: stream_over(stream, is_tunnelled),
        })
    }

    /// Ends the own writing: the peer reads an end, and may still write. A tunnel does not pass that on: there nothing is done.
    pub fn half(&self) {
        if let TalkStream::Plain(stream) = &self.stream {
            let _ = stream.shut();
        }
    }

    /// Has the peer read an error in place of an end: Linux resets a connection that is dissolved, by a connect to an address of no family
    /// (connect(2)). A tunnel does not pass that on: there nothing is done.
    pub fn reset(&self) {
        if let TalkStream::Plain(stream) = &self.stream {
            let nowhere = [0u8; 128];
            let fd = stream.get_ref().as_raw_fd();
            let _ = unsafe { libc::net::connect(fd, &nowhere, 16) };
        }
    }
}
