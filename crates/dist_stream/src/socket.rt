//! A socket as a stream.

ghost use Rattle.std.specs.Prelude.{◌≡◌, ℕ, ◌≤◌, None, List, length, IfOk, IsErrAnd};
ghost use Rattle.std.specs.{Duration.as_nanos, IoError.error_kind};
ghost use Rattle.dist_stream.specs.Stream.{Reads, Writes, heard_count, took_count, new_stream};
ghost use Rattle.dist_stream.specs.Socket.{is_quiet, read_outcome, write_outcome};

use crate::marks::{is_end, is_failed_read, is_failed_write};
use crate::stream::{Heard, Stream, Took};
use std::io::{self, ErrorKind, Read, Write};
use std::net::{Shutdown, TcpStream};
use std::time::Duration;

/// A connection of the system. No contract says which bytes come and go.
///
/// A call that would wait is quiet, and so is one that a signal interrupted; the caller sets how long a call waits, by
/// the socket's timeouts. Any other error is a failure.
#[derive(Drop)]
pub struct SocketStream {
    socket: TcpStream,
    calls: u64,
    ended: bool,
    read_failed: bool,
    write_failed: bool,
}

impl SocketStream {
    /// The stream over this socket, without marks.
    pub fn new(socket: TcpStream) -> SocketStream
        ensures fresh { ⟦<SocketStream as Stream>⟧.meaning result ≡ new_stream None None }
        ensures socket { result.socket ≡ socket }
    {
        SocketStream {
            socket,
            calls: 0,
            ended: false,
            read_failed: false,
            write_failed: false,
        }
    }

    /// The stream over this socket, each read and write of which waits at most `turn`. InvalidInput where `turn` is
    /// zero; any other error is the system's. Then the socket is closed.
    pub fn with_turn(socket: TcpStream, turn: Duration) -> io::Result<SocketStream>
        ensures fresh { IfOk result (λ s. ⟦<SocketStream as Stream>⟧.meaning s ≡ new_stream None None) }
        ensures socket { IfOk result (λ s. s.socket ≡ socket) }
        ensures zero { as_nanos turn ≡ 0 → IsErrAnd result (λ e. error_kind e ≡ ErrorKind.InvalidInput) }
    {
        socket.set_read_timeout(Some(turn))?;
        socket.set_write_timeout(Some(turn))?;
        Ok(SocketStream::new(socket))
    }

    /// Tells the peer that nothing more will be sent: it reads the end of the stream. The socket stays open, so what the
    /// peer still sends can be read, and the own port is not used again. An error is the system's, for instance where the connection
    /// is gone already.
    pub fn shut(&self) -> io::Result<()> {
        self.socket.shutdown(Shutdown::Write)
    }

    /// The socket, for instance to set how long a call waits, or to watch a connection that is kept.
    pub fn get_ref(&self) -> &TcpStream
        ensures { result.now ≡ self.now.socket }
    {
        &self.socket
    }

    /// Counts a read that gave this, and sets its marks.
    pub(crate) fn note_read(&mut self, heard: Heard) -> Heard
        ensures same { result ≡ heard }
        ensures reads { (room : List ℕ) → heard_count heard ≤ length room
            → Reads (⟦<SocketStream as Stream>⟧.meaning self.old) (⟦<SocketStream as Stream>⟧.meaning self.new) room heard }
    {
        self.calls = self.calls.saturating_add(1);
        self.ended = is_end(heard) || self.ended;
        self.read_failed = is_failed_read(heard) || self.read_failed;
        heard
    }

    /// Counts a write that took this, and sets its mark.
    pub(crate) fn note_write(&mut self, took: Took) -> Took
        ensures same { result ≡ took }
        ensures writes { (bytes : List ℕ) → took_count took ≤ length bytes
            → Writes (⟦<SocketStream as Stream>⟧.meaning self.old) (⟦<SocketStream as Stream>⟧.meaning self.new) bytes took }
    {
        self.calls = self.calls.saturating_add(1);
        self.write_failed = is_failed_write(took) || self.write_failed;
        took
    }

    /// Returns the socket.
    pub fn into_inner(self) -> TcpStream
        ensures { result ≡ self.socket }
    {
        self.socket
    }
}

// The socket is fine: a read found no bytes, or a write no room, so far.
fn is_quiet(kind: ErrorKind) -> bool
    ensures { result ≡ is_quiet kind }
{
    matches!(
        kind,
        ErrorKind::WouldBlock | ErrorKind::TimedOut | ErrorKind::Interrupted
    )
}

// What a read with this answer of the system gave.
fn read_outcome(answer: io::Result<usize>) -> Heard
    ensures { result ≡ read_outcome answer }
{
    match answer {
        Ok(count) => Heard::Bytes(count),
        Err(error) => {
            if is_quiet(error.kind()) {
                Heard::Quiet
            } else {
                Heard::Failed
            }
        }
    }
}

// What a write with this answer of the system took.
fn write_outcome(answer: io::Result<usize>) -> Took
    ensures { result ≡ write_outcome answer }
{
    match answer {
        Ok(count) => Took::Bytes(count),
        Err(error) => {
            if is_quiet(error.kind()) {
                Took::Quiet
            } else {
                Took::Failed
            }
        }
    }
}

fn read_socket(socket: &mut TcpStream, room: &mut [u8]) -> Heard
    ensures { heard_count result ≤ length room.new }
{
    read_outcome(socket.read(room))
}

fn write_socket(socket: &mut TcpStream, bytes: &[u8]) -> Took
    ensures { took_count result ≤ length bytes.now }
{
    write_outcome(socket.write(bytes))
}

impl Stream for SocketStream {
    ghost meaning = { λ s. record {
      unread = None;
      written = None;
      calls = s.calls;
      ended = s.ended;
      read_failed = s.read_failed;
      write_failed = s.write_failed;
    } };

    fn read(&mut self, room: &mut [u8]) -> Heard {
        let heard = read_socket(&mut self.socket, room);
        self.note_read(heard)
    }

    fn write(&mut self, bytes: &[u8]) -> Took {
        let took = write_socket(&mut self.socket, bytes);
        self.note_write(took)
    }
}
