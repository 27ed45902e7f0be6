//! The program: plays handshakes from a script, makes the digest of a cookie, prints what a port mapper knows, and runs nodes.
//!
//! The words give an order, by the parser of command lines. Each command is a public function over any reader, stream and writers, which
//! returns the exit status, and so is the call from an order to its command. Only `main` and `host_system` know files, sockets and the
//! process.
#![tactic(auto)]

mod cookie_command;
mod dispatch;
mod fault;
mod host_system;
mod matched;
mod names_command;
mod order_of_words;
mod output;
mod program;
mod run;
mod system;

use crate::dispatch::follow;
use crate::fault::Fault;
use crate::host_system::HostSystem;
use crate::order_of_words::order_of;
use dist_program::{MAPPER_PORT, WordFault, mapper_port, texts, words_of};
use dist_run::Machine;
use std::alloc::Global;
use std::net::{Net, TcpListener, TcpStream};
use std::process::ExitCode;
use std::random::RandomSource;
use std::sync::Wait;
use std::thread::Threads;
use std::time::Clock;

fn main(rt: HostRuntime) -> ExitCode {
    ExitCode::from(answer(&rt, &rt, rt.alloc()))
}

// Does what the command line asks for, and returns the exit status. `host` is the same runtime once more, for commands that start
// threads: outside of `main` the runtime itself starts none. Its bounds are the parts of a `Machine`, since `main` knows only these of
// the runtime.
fn answer<R>(rt: &HostRuntime, host: &R, alloc: Global) -> u8
where
    R: Net<Listener = TcpListener, Stream = TcpStream>
        + Threads
        + Wait
        + Clock
        + RandomSource
        + Sync,
{
    match order_and_run(rt, host, alloc) {
        Ok(status) => status,
        Err(fault) => fault.report_to(&mut rt.stderr()),
    }
}

fn order_and_run<R: Machine>(rt: &HostRuntime, host: &R, alloc: Global) -> Result<u8, Fault> {
    let words = words_of(rt)?;
    let words = texts(alloc, &words)?;
    let named = mapper_port(rt);
    let order = order_of(alloc, &words, port_or_usual(&named))?;
    let system = HostSystem::new(rt);
    Ok(follow(
        &system,
        host,
        alloc,
        order,
        &named,
        &mut rt.stdin(),
        &mut rt.stdout(),
        &mut rt.stderr(),
    ))
}

// The port of the port mapper if the words name none. If the environment names a bad one, it is the usual port, and the command that
// would ask there refuses.
fn port_or_usual(named: &Result<u16, WordFault>) -> u16 {
    match named {
        Ok(port) => *port,
        Err(_) => MAPPER_PORT,
    }
}
