//! The sockets of a run.

ghost use Rattle.std.specs.Prelude.{◌≡◌, ◌≢◌, ◌≤◌, ◌+◌, ◌*◌, IfOk};

use crate::waiting::{MOST_TURNS, wait_for_input};
use dist_program::{connect_here, one_turn};
use dist_stream::SocketStream;
use std::io::ErrorKind;
use std::net::{Ipv4Addr, Net, TcpListener, TcpStream};
use std::os::fd::{AsRawFd, RawFd};
use std::time::Clock;
use std::{io, thread};

/// A connection between two nodes.
#[derive(Drop)]
pub struct LinkStream {
    pub stream: SocketStream,
    /// Which ports it joins.
    pub link: u64,
}

/// A listener at a port of this host, and its port.
#[derive(Drop)]
pub struct LocalListener {
    pub socket: TcpListener,
    pub port: u16,
}

/// Lets the other side see that nothing more will be sent. The socket stays open, so its port is not used again.
pub fn say_goodbye(stream: &SocketStream) {
    let _ = stream.shut();
}

/// A connection to a port of this host.
pub fn connect_to_port<R: Net<Listener = TcpListener, Stream = TcpStream>>(
    rt: &R,
    port: u16,
) -> io::Result<LinkStream> {
    let stream = connect_here(rt, port)?;
    let link = link_of(stream.get_ref().local_addr()?.port(), port);
    Ok(LinkStream { stream, link })
}

// The port that the system reports, where it is the one that was asked for: at 0 the system chooses.
fn port_asked_for(asked: u16, reported: u16) -> io::Result<u16>
    ensures { IfOk result (λ port. asked ≢ 0 → port ≡ asked) }
{
    if asked == 0 || reported == asked {
        Ok(reported)
    } else {
        Err(io::Error::from(ErrorKind::AddrNotAvailable))
    }
}

/// Listens at a port of this host. For port 0 the system chooses one.
pub fn listen<R: Net<Listener = TcpListener, Stream = TcpStream>>(
    rt: &R,
    port: u16,
) -> io::Result<LocalListener>
    ensures { IfOk result (λ listener. port ≢ 0 → listener.port ≡ port) }
{
    let socket = TcpListener::bind(rt, (Ipv4Addr::LOCALHOST, port))?;
    socket.set_nonblocking(true)?;
    let port = port_asked_for(port, socket.local_addr()?.port())?;
    Ok(LocalListener { socket, port })
}

fn take_connection(listener: &LocalListener) -> io::Result<LinkStream> {
    let (socket, from) = listener.socket.accept()?;
    Ok(LinkStream {
        stream: SocketStream::with_turn(socket, one_turn())?,
        link: link_of(from.port(), listener.port),
    })
}

/// Waits until a connection has come, or none comes any more, for so many turns at most. Returns how many of them passed.
pub fn wait_for_connection<R: Clock>(rt: &R, listener: &LocalListener, turns: usize) -> usize
    ensures { result ≤ turns }
{
    wait_for_input(rt, listener.socket.as_raw_fd(), turns.min(MOST_TURNS))
}

/// The next connection, where one has come. Where the system refuses to give one out, for lack of descriptors say, a turn passes.
pub fn accept<R: Clock>(rt: &R, listener: &LocalListener) -> Option<LinkStream> {
    match take_connection(listener) {
        Ok(connection) => Some(connection),
        Err(error) => {
            if error.kind() != ErrorKind::WouldBlock {
                thread::sleep(rt, one_turn());
            }
            None
        }
    }
}

/// Ends what comes to a listener: whoever waits for a connection there, in whatever thread, waits no more.
pub fn stop_listening(listener: &LocalListener) {
    end_reads(listener.socket.as_raw_fd());
}

/// The system's number of a connection's socket. It is this socket's until the stream is dropped.
pub fn socket_of(stream: &SocketStream) -> RawFd {
    stream.get_ref().as_raw_fd()
}

/// Ends what is read of a connection: whoever waits for bytes there, in whatever thread, reads the end of the stream.
pub fn end_reads(socket: RawFd) {
    let _ = libc::net::shutdown(socket, libc::net::SHUT_RD);
}

/// The number of a connection between two nodes: which ports it joins.
pub fn link_of(dialler_port: u16, listening_port: u16) -> u64
    ensures { result ≡ dialler_port * 65536 + listening_port }
{
    u64::from(dialler_port) * 65_536 + u64::from(listening_port)
}
