//! Connections, and how long they may take: a limit for a connect, a limit for an answer of the port mapper, the length of a turn.

ghost use Rattle.std.specs.{Prelude.◌≡◌, Prelude.None, Prelude.IfOk, Duration.as_nanos, Net.Socket.socket_ip, Net.Socket.socket_port};
ghost use Rattle.dist_stream.specs.Stream.{new_stream};

use dist_stream::{DeadlineStream, SocketStream, Stream, connect_by, deadline_after};
use std::io;
use std::net::{Ipv4Addr, Net, SocketAddr, TcpListener, TcpStream};
use std::time::{Clock, Duration, Instant};

/// How many seconds a connect may take, unless the command line says otherwise. Where so many connections wait to be accepted that
/// the system drops further ones, a connect without a limit waits some two minutes. A node gives up a handshake after 7 seconds, and
/// this is one second more. Our own choice.
pub const CONNECT_SECONDS: u16 = 8;

/// How many seconds the port mapper of this host has for its answer, no matter what comes meanwhile. Our own choice.
pub const ANSWER_SECONDS: u16 = 5;

/// How many milliseconds a quiet turn lasts: one read, one write or one accept of a connection that has no deadline.
const TURN_MILLISECONDS: u64 = 10;

/// How long a read, a write or an accept waits.
pub fn one_turn() -> Duration
    ensures { as_nanos result ≡ 10000000 }
{
    Duration::from_millis(TURN_MILLISECONDS)
}

/// A port of this host, by the loopback.
pub fn this_host(port: u16) -> SocketAddr
    ensures { socket_port result ≡ port }
{
    SocketAddr::from((Ipv4Addr::LOCALHOST, port))
}

/// A port of an address.
pub fn at_port(address: &SocketAddr, port: u16) -> SocketAddr
    ensures port { socket_port result ≡ port }
    ensures ip { socket_ip result ≡ socket_ip address.now }
{
    let mut place = *address;
    place.set_port(port);
    place
}

/// The time that is this many seconds from now, at least one. An error is the clock's.
pub fn deadline_in<C: Clock>(clock: &C, seconds: u16) -> io::Result<Instant> {
    deadline_after(clock, Duration::from_secs(u64::from(seconds.max(1))))
}

/// The stream over a connection, for a talk of this many seconds, at least one: after them it is quiet. An error is the clock's.
pub fn talk_over<C: Clock + Drop>(
    clock: C,
    stream: SocketStream,
    seconds: u16,
) -> io::Result<DeadlineStream<C>>
    ensures { IfOk result (λ s. ⟦<DeadlineStream<C> as Stream>⟧.meaning s ≡ ⟦<SocketStream as Stream>⟧.meaning stream) }
{
    let until = deadline_in(&clock, seconds)?;
    Ok(DeadlineStream::new(stream, clock, until))
}

/// A connection to this address, made within this many seconds, at least one.
///
/// An error is the system's or the clock's: ConnectionRefused where nobody listens there, TimedOut where no answer came in time.
pub fn connect<R: Net<Listener = TcpListener, Stream = TcpStream> + Clock>(
    rt: &R,
    address: &SocketAddr,
    seconds: u16,
) -> io::Result<SocketStream>
    ensures { IfOk result (λ s. ⟦<SocketStream as Stream>⟧.meaning s ≡ new_stream None None) }
{
    let until = deadline_in(rt, seconds)?;
    Ok(connect_by(rt, address, until)?.into_inner())
}

/// A connection to the port mapper at this port of this host: made within 8 seconds, and quiet 5 seconds after that.
pub fn talk_here<'a, R: Net<Listener = TcpListener, Stream = TcpStream> + Clock>(
    rt: &'a R,
    port: u16,
) -> io::Result<DeadlineStream<&'a R>>
    ensures { IfOk result (λ s. ⟦<DeadlineStream<&'a R> as Stream>⟧.meaning s ≡ new_stream None None) }
{
    let stream = connect(rt, &this_host(port), CONNECT_SECONDS)?;
    talk_over(rt, stream, ANSWER_SECONDS)
}

/// A connection to a port of this host, made within 8 seconds, each read and write of which waits at most one turn.
pub fn connect_here<R: Net<Listener = TcpListener, Stream = TcpStream>>(
    rt: &R,
    port: u16,
) -> io::Result<SocketStream>
    ensures { IfOk result (λ s. ⟦<SocketStream as Stream>⟧.meaning s ≡ new_stream None None) }
{
    let limit = Duration::from_secs(u64::from(CONNECT_SECONDS));
    dist_stream::connect(rt, &this_host(port), limit, one_turn())
}
