//! Waits for one connection at a port of this host.

ghost use Rattle.std.specs.Prelude.{◌≡◌, None, IfOk, IsSome};

use dist_program::{deadline_in, one_turn};
use dist_stream::time_left;
use libc::types::pollfd;
use std::io::{self, ErrorKind};
use std::net::{Ipv4Addr, Ipv6Addr, SocketAddr, TcpListener, TcpStream};
use std::os::fd::AsRawFd;
use std::thread;
use std::time::Duration;

/// A listener at this port of this address, or else of all addresses of this host: of IPv6 and IPv4, or only of IPv4 if the system has no
/// IPv6. An error is the system's.
pub(crate) fn bind_listener(
    rt: &HostRuntime,
    place: Option<SocketAddr>,
    port: u16,
) -> io::Result<TcpListener> {
    if let Some(place) = place {
        return TcpListener::bind(rt, (place.ip(), port));
    }
    match TcpListener::bind(rt, (Ipv6Addr::UNSPECIFIED, port)) {
        Err(error) if error.kind() != ErrorKind::AddrInUse => {
            TcpListener::bind(rt, (Ipv4Addr::UNSPECIFIED, port))
        }
        bound => bound,
    }
}

// The next connection, and the address that it came from; one of IPv4 is not written as one of IPv6.
fn next_caller(listener: &TcpListener) -> io::Result<(TcpStream, SocketAddr)> {
    let (socket, from) = listener.accept()?;
    Ok((
        socket,
        SocketAddr::new(from.ip().to_canonical(), from.port()),
    ))
}

// Whether no connection has come yet.
fn is_nobody(error: &io::Error) -> bool {
    matches!(error.kind(), ErrorKind::WouldBlock | ErrorKind::Interrupted)
}

// Waits until a connection has come, for this time at most, in whole milliseconds. Where the system does not wait, a turn passes.
fn wait(rt: &HostRuntime, listener: &TcpListener, time: Duration) {
    let mut waits = [pollfd {
        fd: listener.as_raw_fd(),
        events: libc::net::POLLIN,
        revents: 0,
    }];
    let milliseconds = i32::try_from(time.as_millis()).unwrap_or(i32::MAX);
    if libc::net::poll(&mut waits, milliseconds.saturating_add(1)) < 0 {
        thread::sleep(rt, one_turn());
    }
}

/// The next connection, within `patience` seconds if that is given. `None` if none came.
pub fn await_caller(
    rt: &HostRuntime,
    listener: &TcpListener,
    patience: Option<u16>,
) -> io::Result<Option<(TcpStream, SocketAddr)>>
    ensures patient { patience ≡ None → IfOk result IsSome }
{
    let Some(seconds) = patience else {
        return Ok(Some(next_caller(listener)?));
    };
    listener.set_nonblocking(true)?;
    let until = deadline_in(rt, seconds)?;
    for _ in 0..u64::MAX {
        let left = time_left(rt, until);
        wait(rt, listener, left);
        match next_caller(listener) {
            Ok(caller) => return Ok(Some(caller)),
            Err(error) if !is_nobody(&error) => return Err(error),
            Err(_) if left.is_zero() => break,
            Err(_) => {}
        }
    }
    Ok(None)
}
