//! A port mapper for Erlang nodes, in place of `epmd`: it stays in the foreground, and serves all clients at once.
#![tactic(auto)]

ghost use Rattle.std.specs.Prelude.{◌≤◌};

mod addresses;
mod answer;
mod fault;
mod key;
mod lines;
mod log;
mod members;
mod metrics;
mod moment;
mod monitor;
mod names;
mod notice;
mod output;
mod page;
mod rates;
mod reading;
mod refusal;
mod serving;
mod settings;
mod sockets;
mod spares;
mod standard_error;

use crate::addresses::ClientAddresses;
use crate::fault::Fault;
use crate::log::Log;
use crate::moment::{TimeOfDay, now_seconds};
use crate::monitor::Monitor;
use crate::names::print_names;
use crate::notice::say_ready;
use crate::output::print;
use crate::reading::{metrics_place, settings_of};
use crate::refusal::{BadWord, WordError};
use crate::serving::{Beside, serve};
use crate::settings::{Settings, Task};
use crate::sockets::{handed_over, listeners, port_of};
use crate::standard_error::StandardError;
use dist_epmd_server::{MapperLimits, Server};
use dist_names::quote;
use dist_program::{mapper_port, report, texts, variable, words_of};
use mio::net::TcpListener;
use std::alloc::{AllocError, Global};
use std::io::{self, Write};
use std::net::{Net, SocketAddr};
use std::process::ExitCode;
use std::sync::Wait;
use std::time::Clock;

/// How the program is called.
const HELP: &str =
    "usage: distmapd [-port N] [-address A,B] [-packet_timeout S] [-max_clients N] [-systemd]
                [-log text|json] [-quiet] [-metrics [ADDRESS:]PORT]
       distmapd -names [-port N]
       distmapd --help | --version

A port mapper for Erlang nodes, in place of epmd. It stays in the foreground.

  -port N            the port of the port mapper (ERL_EPMD_PORT, else 4369)
  --epmd-port N      the same, by the word that the other programs have for it
  -address A,B       the IP addresses at which it listens, beside 127.0.0.1 and ::1 (ERL_EPMD_ADDRESS, else all)
  --address A,B      the same, by the word that the other programs have for it
  -packet_timeout S  after how many seconds a client is closed that has not asked (60)
  -max_clients N     the most clients at once (4096)
  -systemd           the sockets are handed over, LISTEN_FDS of them from descriptor 3 on
  -log text|json     in which form it says on standard error what happens (text)
  -quiet             it says nothing of that
  -metrics PORT      serves its figures to Prometheus at this port of 127.0.0.1; ADDRESS:PORT at another address
  -names             prints the names that the port mapper of this host knows
  -h, --help, -help  prints this
  -V, --version      prints the version

Status: 0 done, 1 a fault here, 2 a bad command line.
";

/// The version of the program.
const VERSION: &str = "distmapd 0.2.0\n";

// The least creation; nodes without a creation use those below it. Source: OTP, erl_epmd.
const LEAST_CREATION: u32 = 4;

fn main(rt: HostRuntime) -> ExitCode {
    ExitCode::from(match perform(&rt, &rt, &mut rt.stdout()) {
        Ok(()) => 0,
        Err(fault) => report(&mut rt.stderr(), "distmapd", &fault, fault.status()),
    })
}

// Does what the words of the command line and the environment ask for. `host` is the same runtime once more, for calls that may wait:
// outside of `main` the runtime itself may not.
fn perform<R: Net + Wait + Clock, W: Write>(
    rt: &HostRuntime,
    host: &R,
    out: &mut W,
) -> Result<(), Fault> {
    let words = words_of(rt)?;
    let port = mapper_port(rt)?;
    let addresses = variable(rt, "ERL_EPMD_ADDRESS")?;
    let settings = settings_in(rt.alloc(), &words, port, addresses.as_deref())?;
    let metrics = metrics_in(rt.alloc(), settings.metrics)?;
    match settings.task {
        Task::Help => print(out, HELP),
        Task::Version => print(out, VERSION),
        Task::Names => print_names(rt, rt.alloc(), settings.port, out),
        Task::Serve => run(rt, host, &settings, metrics),
    }
}

// What these words ask for.
fn settings_in<'a>(
    alloc: Global,
    words: &'a [String],
    port: u16,
    addresses: Option<&'a str>,
) -> Result<Settings<'a>, Fault> {
    match settings_of(&texts(alloc, words)?, port, addresses) {
        Ok(settings) => Ok(settings),
        Err(bad) => Err(Fault::BadWords(sentence(alloc, bad)?)),
    }
}

// The place that the value of `-metrics` writes, if there is one.
fn metrics_in(alloc: Global, word: Option<&str>) -> Result<Option<SocketAddr>, Fault> {
    let Some(word) = word else {
        return Ok(None);
    };
    match metrics_place(word) {
        Some(place) => Ok(Some(place)),
        None => {
            let why = WordError::BadMetrics;
            Err(Fault::BadWords(sentence(alloc, BadWord { word, why })?))
        }
    }
}

// The sentence that refuses the words, with the bad one in it.
fn sentence(alloc: Global, bad: BadWord<'_>) -> Result<String, AllocError> {
    let quoted = quote(alloc, bad.word.as_bytes())?;
    let why = bad.why;
    format!(in alloc; "{quoted}: {why}")
}

// The first creation: the seconds since 1970. So a mapper that is restarted gives out no creation twice, unless it registers more than
// one node a second all the time.
fn first_creation<R: Clock>(rt: &R) -> u32
    ensures { 4 ≤ result }
{
    u32::try_from(now_seconds(rt))
        .unwrap_or(0)
        .max(LEAST_CREATION)
}

// How many sockets were handed over: 0 if the settings don't ask for any.
fn sockets_handed_over(rt: &HostRuntime, settings: &Settings<'_>) -> Result<u16, Fault> {
    if !settings.systemd {
        return Ok(0);
    }
    let said = variable(rt, "LISTEN_FDS")?;
    let process = variable(rt, "LISTEN_PID")?;
    handed_over(said.as_deref(), process.as_deref(), libc::getpid()).ok_or(Fault::ListenFailed)
}

// The monitor at this place, if there is one.
fn monitor_at<R: Net>(
    net: &R,
    alloc: Global,
    place: Option<SocketAddr>,
) -> Result<Option<Monitor>, Fault> {
    let Some(place) = place else {
        return Ok(None);
    };
    match Monitor::new(net, alloc, place) {
        Ok(monitor) => Ok(Some(monitor)),
        Err(_) => Err(Fault::MetricsFailed),
    }
}

// The port mapper at these sockets, the first of which has this port.
fn server_at<R: Net + Clock>(
    host: &R,
    alloc: Global,
    settings: &Settings<'_>,
    sockets: Vec<TcpListener>,
    port: u16,
) -> io::Result<Server> {
    let limits = MapperLimits {
        clients: settings.clients as usize,
        seconds: u64::from(settings.seconds),
    };
    let mut server = Server::new(host, alloc, port, first_creation(host), limits)?;
    for socket in sockets {
        server.add_listener(socket)?;
    }
    Ok(server)
}

// Listens, and serves until the system fails.
fn run<R: Net + Wait + Clock>(
    rt: &HostRuntime,
    host: &R,
    settings: &Settings<'_>,
    metrics: Option<SocketAddr>,
) -> Result<(), Fault> {
    let alloc = rt.alloc();
    let sockets = listeners(host, alloc, settings, sockets_handed_over(rt, settings)?)?;
    let port = port_of(&sockets).ok_or(Fault::ListenFailed)?;
    let mut beside = Beside {
        log: settings.log.map(|form| Log::new(form)),
        addresses: ClientAddresses::new(alloc),
        moment: TimeOfDay::new(alloc),
        monitor: monitor_at(host, alloc, metrics)?,
        standard_error: StandardError::open(),
    };
    match server_at(host, alloc, settings, sockets, port) {
        Ok(mut server) => serve_from_now(rt, host, &mut server, &mut beside),
        Err(_) => Err(Fault::ServeFailed),
    }
}

// Notifies the service manager, if one asks for it, that the program listens, and serves until the system fails. Beside the descriptors
// that the monitor reserves one must be left for a client of the port mapper.
fn serve_from_now<R: Wait + Clock>(
    rt: &HostRuntime,
    host: &R,
    server: &mut Server,
    beside: &mut Beside,
) -> Result<(), Fault> {
    if let Some(monitor) = &beside.monitor
        && !monitor.leaves_one()
    {
        return Err(Fault::NoDescriptors);
    }
    if let Some(name) = variable(rt, "NOTIFY_SOCKET")? {
        let _ = say_ready(name.as_bytes());
    }
    match serve(host, rt.alloc(), server, beside) {
        Ok(()) => Ok(()),
        Err(_) => Err(Fault::ServeFailed),
    }
}
