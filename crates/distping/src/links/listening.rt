//! Takes one connection, as a node takes it, and prints what the other side says.

ghost use Rattle.std.specs.Prelude.{◌≡◌, None, IfOk, false, is_some, true};
ghost use Rattle.distping.specs.Coming.{ComesIn};

use crate::links::attempt::ProbeStream;
use crate::links::speaking::speak_with;
use crate::links::waiting::{await_caller, bind_listener};
use dist_program::talk_over;
use dist_stream::SocketStream;
use dist_talk::HandshakeVerdict;
use distping_report::{Caller, LineSink, Listen};
use distping_words::Fault;
use std::io;
use std::net::{SocketAddr, TcpStream};

// A result of the system for the listener, or the fault that it failed.
fn or_fault<T: Drop>(given: io::Result<T>) -> Result<T, Fault> {
    match given {
        Ok(it) => Ok(it),
        Err(error) => Err(Fault::ListenFailed(error.kind())),
    }
}

// Prints where a connection came from, and makes it one that ends in time.
fn talk_with<'a>(
    rt: &'a HostRuntime,
    listen: &Listen<'_>,
    lines: LineSink<'_>,
    socket: TcpStream,
    from: &SocketAddr,
) -> Result<ProbeStream<'a>, Fault> {
    lines.put_taken(from)?;
    or_fault(talk_over(rt, SocketStream::new(socket), listen.choices.seconds))
}

// Listens, and waits for one connection. `None` if no node dialled in time.
fn accept<'a>(
    rt: &'a HostRuntime,
    listen: &Listen<'_>,
    lines: LineSink<'_>,
    caller: &mut Caller,
) -> Result<Option<ProbeStream<'a>>, Fault>
    ensures handshake { caller.new.handshake ≡ caller.old.handshake }
    ensures nobody { IfOk result (λ stream. stream ≡ None → caller.new.address ≡ caller.old.address) }
{
    let listener = or_fault(bind_listener(rt, listen.place, listen.port))?;
    lines.put_listening(listen.port, &listen.own.setup.name)?;
    match or_fault(await_caller(rt, &listener, listen.choices.patience))? {
        Some((socket, from)) => {
            caller.address = Some(from);
            Ok(Some(talk_with(rt, listen, lines, socket, &from)?))
        }
        None => Ok(None),
    }
}

// Talks with the node that dialled, prints what that says of itself, and returns the verdict.
fn attend(
    rt: &HostRuntime,
    stream: ProbeStream<'_>,
    listen: &Listen<'_>,
    lines: LineSink<'_>,
    caller: &mut Caller,
) -> Result<HandshakeVerdict, Fault>
    ensures comes { IfOk result (ComesIn listen.now caller.new.handshake) }
    ensures said { IfOk result (λ _. is_some caller.new.handshake ≡ true) }
{
    let limit = listen.choices.turns();
    let talk = speak_with(rt, lines.alloc, stream, &listen.own, limit, false);
    let verdict = talk.handshake.verdict(&listen.own.terms);
    caller.handshake = Some(talk.handshake);
    if let Some(peer) = caller.peer() {
        lines.put_peer(peer)?;
    }
    Ok(verdict)
}

/// Takes one connection, prints what the other side says, and returns the verdict. `caller` gets what was found out.
pub fn take_connection(
    rt: &HostRuntime,
    listen: &Listen<'_>,
    lines: LineSink<'_>,
    caller: &mut Caller,
) -> Result<HandshakeVerdict, Fault>
    // Nothing was found out before.
    requires { caller.old.handshake ≡ None }
    ensures comes { IfOk result (ComesIn listen.now caller.new.handshake) }
    // Without a handshake no connection was taken.
    ensures nobody { IfOk result (λ _. is_some caller.new.handshake ≡ false → caller.new.address ≡ caller.old.address) }
{
    match accept(rt, listen, lines, caller)? {
        Some(stream) => attend(rt, stream, listen, lines, caller),
        None => Ok(HandshakeVerdict::NoCaller),
    }
}
