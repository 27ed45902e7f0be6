//! Connections that are made within a limit of time.

ghost use Rattle.std.specs.{Prelude.◌≡◌, Prelude.None, Prelude.IfOk, Prelude.IsErr, Duration.as_nanos};
ghost use Rattle.dist_stream.specs.Stream.{new_stream};

use crate::socket::SocketStream;
use crate::stream::Stream;
use std::io;
use std::net::{Net, SocketAddr, TcpListener, TcpStream};
use std::time::Duration;

/// A connection to this address, made within `limit`, each read and write of which waits at most `turn`.
///
/// An error is the system's: ConnectionRefused where nobody listens there, TimedOut where no answer came within `limit`, as
/// from a host that is cut off, or where so many connections wait to be accepted that the system drops further ones, for
/// which a connect without a limit waits some two minutes. InvalidInput where one of the two times is zero.
pub fn connect<R: Net<Listener = TcpListener, Stream = TcpStream>>(
    rt: &R,
    address: &SocketAddr,
    limit: Duration,
    turn: Duration,
) -> io::Result<SocketStream>
    ensures fresh { IfOk result (λ s. ⟦<SocketStream as Stream>⟧.meaning s ≡ new_stream None None) }
    ensures zero { as_nanos turn ≡ 0 → IsErr result }
{
    let socket = TcpStream::connect_timeout(rt, address, limit)?;
    SocketStream::with_turn(socket, turn)
}
