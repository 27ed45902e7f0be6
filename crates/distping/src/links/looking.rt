//! Looks at a connection without reading from it.

use libc::types::pollfd;
use std::net::TcpStream;
use std::os::fd::AsRawFd;

// Whether one of these events is there within this many milliseconds; an error of the connection is one of all.
fn has_event(socket: &TcpStream, events: i16, milliseconds: i32) -> bool {
    let mut waits = [pollfd {
        fd: socket.as_raw_fd(),
        events,
        revents: 0,
    }];
    libc::net::poll(&mut waits, milliseconds) > 0
}

/// Whether the other side ends the connection within this many milliseconds, or has ended it, whatever is still to be read.
pub fn has_ended(socket: &TcpStream, milliseconds: i32) -> bool {
    has_event(socket, libc::net::POLLRDHUP, milliseconds)
}

/// Whether bytes come, or the end, within this many milliseconds.
pub fn is_readable(socket: &TcpStream, milliseconds: i32) -> bool {
    has_event(socket, libc::net::POLLIN, milliseconds)
}
