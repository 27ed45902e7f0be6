//! Sockets of the loopback: one that is quiet, and a connection that nobody accepts.

use dist_stream::{Heard, SocketStream, Stream, connect};
use std::io::ErrorKind;
use std::net::{Ipv4Addr, SocketAddr, TcpListener, TcpStream};
use std::test::*;
use std::time::Duration;

// A client, and the server's end of its connection, whose reads wait for at most a millisecond.
fn connection(rt: &HostRuntime) -> Option<(SocketStream, SocketStream)> {
    let listener = TcpListener::bind(rt, (Ipv4Addr::LOCALHOST, 0)).ok()?;
    let client = TcpStream::connect(rt, listener.local_addr().ok()?).ok()?;
    let (server, _) = listener.accept().ok()?;
    let server = SocketStream::with_turn(server, Duration::from_millis(1)).ok()?;
    Some((SocketStream::new(client), server))
}

// What is read after quiet turns.
fn read_after_quiet(stream: &mut SocketStream, room: &mut [u8; 8]) -> Heard {
    let mut heard = Heard::Quiet;
    for _ in 0..1000 {
        if heard == Heard::Quiet {
            heard = stream.read(room);
        }
    }
    heard
}

#[test]
fn a_socket_is_quiet_until_something_comes(rt: HostRuntime) {
    let Some((mut client, mut server)) = connection(&rt) else {
        panic!(rt; "no connection");
    };
    let mut room = [0u8; 8];
    assert_eq!(rt; server.read(&mut room), Heard::Quiet);
    let _ = client.write(b"abc");
    assert_eq!(rt; read_after_quiet(&mut server, &mut room), Heard::Bytes(3));
    assert!(rt; room == *b"abc\0\0\0\0\0");
    drop(client);
    assert_eq!(rt; read_after_quiet(&mut server, &mut room), Heard::Bytes(0));
}

// Why the first connection fails if none is accepted. There are more of them than any listener here keeps waiting; 128 were asked for.
fn first_failure(rt: &HostRuntime, address: &SocketAddr) -> Option<ErrorKind> {
    let turn = Duration::from_millis(10);
    let mut kept = Vec::new(rt.alloc());
    for _ in 0..1000 {
        match connect(rt, address, Duration::from_millis(50), turn) {
            Ok(stream) => kept.push(stream).ok()?,
            Err(error) => return Some(error.kind()),
        }
    }
    None
}

// The same for a new listener.
fn failure_of_full(rt: &HostRuntime) -> Option<ErrorKind> {
    let listener = TcpListener::bind(rt, (Ipv4Addr::LOCALHOST, 0)).ok()?;
    first_failure(rt, &listener.local_addr().ok()?)
}

#[test]
fn a_full_listener_is_given_up_in_time(rt: HostRuntime) {
    assert_eq!(rt; failure_of_full(&rt), Some(ErrorKind::TimedOut));
}
