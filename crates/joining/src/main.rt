//! The program: joins a live Erlang node as a hidden node, keeps the link until its input ends, prints each packet that arrives, answers
//! `net_adm:ping`, and leaves.
//!
//! It is the example of docs/LIBRARY.md. What it builds on is proved; of the program itself it is proved that it is safe and always
//! terminates, and which packets ask for an answer, and with which one (`ping`).
#![tactic(auto)]

mod command;
mod dialling;
mod fault;
mod handshake;
mod link;
mod ping;
mod printing;

use command::{Invocation, JoinRequest, request_of};
use dialling::join_node;
use dist_program::{
    CONNECT_SECONDS, HostError, Resolving, draw, find_cookie, lookup_host, mapper_port, read_words,
    report,
};
use distribution::{Cookies, Creation, Limits, Release, Setup, Version};
use fault::Fault;
use link::{Keeping, Link};
use printing::{print, start_printing};
use std::io;
use std::net::{Shutdown, TcpStream};
use std::process::ExitCode;
use std::sync::Arc;
use std::sync::atomic::{AtomicBool, Ordering};
use std::thread::{self, Threads};
use std::time::{Duration, Instant};

/// The help.
const HELP: &str =
    "usage: joining NODE [--name NAME] [--address HOST] [--cookie FILE] [--cookie-unsafe]
                    [--epmd-port N] [--net-ticktime N]
       joining --help | --version

Joins a live Erlang node as a hidden node, at the first address of its host at which it is found, reports each packet that comes, and
leaves at the end of its input.

  NODE               the node to join, NAME@HOST
  --name NAME        the own name (joining@ and the host part of NODE)
  --address HOST     the host to connect to, in place of the host part of NODE
  --cookie FILE      the file of the cookie ($HOME/.erlang.cookie)
  --cookie-file FILE the same
  --cookie-unsafe    take a cookie's file that others than its owner can read
  --epmd-port N      the port of the port mapper (ERL_EPMD_PORT, else 4369)
  --net-ticktime N   after how many seconds a silent peer is given up (60), as the node's net_ticktime

Status: 0 left, 1 a fault here, 2 a bad command line, 3 not joined, 4 the link is lost.
";

/// The version of the program, and of what it speaks.
const VERSION: &str = "joining 0.2.0, distribution handshake of version 6\n";

fn main(rt: HostRuntime) -> ExitCode {
    ExitCode::from(match perform(rt, rt) {
        Ok(()) => 0,
        Err(fault) => report(&mut rt.stderr(), "joining", &fault, fault.status()),
    })
}

// Does what the command line asks for. `own` is the same runtime, for calls that may wait.
fn perform<R: Resolving + Copy + Send + 'static>(rt: HostRuntime, own: R) -> Result<(), Fault> {
    let words = read_words(&rt, "joining")?;
    let mapper_port = mapper_port(&rt)?;
    match request_of(rt.alloc(), &words, mapper_port)? {
        Invocation::Prints(text) => print(&rt, text),
        Invocation::Joins(wanted) => {
            let mut link = join(&rt, &own, &wanted)?;
            stay(rt, own, &mut link)
        }
    }
}

// The setup of this program's node: hidden, since its flags are without `DFLAG_PUBLISHED`.
fn setup_of(rt: &HostRuntime, wanted: &JoinRequest<'_>) -> Result<Setup, Fault> {
    let alloc = rt.alloc();
    let creation = draw(rt)?;
    let cookie = find_cookie(rt, wanted.cookie_file, wanted.is_unsafe)?;
    Ok(Setup {
        name: wanted.name.try_clone(alloc)?,
        cookies: Cookies::new(alloc, cookie),
        version: Version::Six,
        flags: Release::Otp28.required(),
        required: Release::Otp25.required(),
        creation: Creation(creation),
        allow: None,
        limits: Limits::long_running(),
    })
}

// Joins the node at an address of its host. `resolver` is the same runtime, for calls that may wait.
fn join<R: Resolving>(
    rt: &HostRuntime,
    resolver: &R,
    wanted: &JoinRequest<'_>,
) -> Result<Link, Fault> {
    let setup = setup_of(rt, wanted)?;
    let limit = Duration::from_secs(u64::from(CONNECT_SECONDS));
    match lookup_host(resolver, *rt, wanted.host, limit) {
        Ok(addresses) => join_node(rt, &setup, wanted, &addresses),
        Err(HostError::NoMemory) => Err(Fault::NoMemory),
        Err(error) => Err(Fault::NoHost(error)),
    }
}

// Keeps the link, while one thread waits for the end of the input, and another one prints. Leaves at the end of the input.
fn stay<R: Resolving + Copy + Send + 'static>(
    rt: HostRuntime,
    own: R,
    link: &mut Link,
) -> Result<(), Fault> {
    let start = Instant::now(&own)?;
    let ended = mark_of_end(rt, &own, link)?;
    let (lengths, printer) = start_printing(rt, own, &link.record)?;
    let kept = link.keep(Keeping {
        rt: &own,
        start,
        lengths,
        ended: &ended,
    });
    kept.and(printer.join(&own))?;
    print(&rt, "left\n")
}

// A mark that is set at the end of the input, by a thread that reads it and then wakes the link.
fn mark_of_end<R: Threads>(
    rt: HostRuntime,
    own: &R,
    link: &Link,
) -> Result<Arc<AtomicBool>, Fault> {
    let socket = link.stream.get_ref().try_clone()?;
    let Ok(ended) = Arc::new(rt.alloc(), AtomicBool::new(false)) else {
        return Err(Fault::NoMemory);
    };
    let theirs = Arc::try_clone(&ended)?;
    match thread::spawn(own, move || watch(rt, &theirs, &socket)) {
        Ok(_) => Ok(ended),
        Err(_) => Err(Fault::SystemFailed),
    }
}

// Reads the input to its end, sets the mark, and shuts the socket for reads, so that one that waits returns. What is read is ignored.
fn watch<R: Input + Drop>(rt: R, ended: &AtomicBool, socket: &TcpStream) {
    let _ = io::copy(&mut rt.reader(), &mut io::sink());
    ended.store(true, Ordering::SeqCst);
    let _ = socket.shutdown(Shutdown::Read);
}
