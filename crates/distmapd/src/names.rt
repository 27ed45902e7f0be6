//! The names that the port mapper of this host knows, as `epmd -names` prints them.

use crate::answer::ask;
use crate::fault::Fault;
use crate::output::print_answer;
use dist_program::{ANSWER_SECONDS, CONNECT_SECONDS, connect, talk_here, talk_over};
use dist_stream::DeadlineStream;
use std::alloc::Global;
use std::io::{self, ErrorKind, Write};
use std::net::{Ipv6Addr, Net, SocketAddr, TcpListener, TcpStream};
use std::time::Clock;

// A connection to this port of the loopback: over IPv4, or over IPv6 with the same limits if nothing listens there.
fn talk_with<'a, R: Net<Listener = TcpListener, Stream = TcpStream> + Clock>(
    rt: &'a R,
    port: u16,
) -> io::Result<DeadlineStream<&'a R>> {
    match talk_here(rt, port) {
        Err(error) if error.kind() == ErrorKind::ConnectionRefused => {}
        first => return first,
    }
    let address = SocketAddr::from((Ipv6Addr::LOCALHOST, port));
    let stream = connect(rt, &address, CONNECT_SECONDS)?;
    talk_over(rt, stream, ANSWER_SECONDS)
}

/// Asks the port mapper at this port of the loopback, over IPv4 or else IPv6, and prints its own port and the names.
///
/// `ConnectFailed` if no connection is made within 8 seconds. The answer must arrive within 5 seconds more: [`print_answer`] says what
/// is reported otherwise.
pub fn print_names<R: Net<Listener = TcpListener, Stream = TcpStream> + Clock, W: Write>(
    rt: &R,
    alloc: Global,
    port: u16,
    out: &mut W,
) -> Result<(), Fault> {
    let mut stream = talk_with(rt, port).map_err(|_| Fault::ConnectFailed)?;
    let answer = ask(alloc, &mut stream)?;
    print_answer(alloc, &answer, out)
}
