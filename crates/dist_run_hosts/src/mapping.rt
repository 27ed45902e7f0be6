//! The port mapper of a run.

ghost use Rattle.std.specs.{Prelude.◌≡◌, Prelude.◌≢◌, Prelude.◌≤◌, Prelude.◌+◌, Prelude.◌*◌, IoError.error_kind};
ghost use Rattle.dist_run_hosts.specs.declared.run_error.RunError.TheVariants.{ListenFailed, NoMemory};

use crate::run_error::RunError;
use crate::sockets::LocalListener;
use dist_epmd_server::{MapperLimits, Server, serve};
use std::alloc::Global;
use std::io::{self, ErrorKind};
use std::net::Net;
use std::sync::Wait;
use std::sync::atomic::AtomicBool;
use std::time::{Clock, Duration};

// The first creation that the port mapper gives.
const FIRST_CREATION: u32 = 1;

const TURNS_OF_A_SECOND: usize = 100;

// How long it waits where nothing happens.
const WAIT_SECONDS: u64 = 1;

// After how many seconds a client is closed that has not asked. Seconds are counted without their parts, so one more than
// its turns take lets it have them all.
fn seconds_for(turns: usize) -> u64
    ensures enough { turns + 100 ≤ result * 100 }
    ensures no_more { result * 100 ≤ turns + 200 }
{
    turns.div_ceil(TURNS_OF_A_SECOND) as u64 + 1
}

// Why there is no port mapper.
fn fault_of(error: io::Error) -> RunError
    ensures memory { error_kind error ≡ ErrorKind.OutOfMemory → result ≡ NoMemory }
    ensures system { error_kind error ≢ ErrorKind.OutOfMemory → result ≡ ListenFailed }
{
    match error.kind() {
        ErrorKind::OutOfMemory => RunError::NoMemory,
        _ => RunError::ListenFailed,
    }
}

/// What the port mapper of a run allows: this many clients at once, and this many turns until a client is closed that has not
/// asked.
pub fn mapper_limits(clients: usize, turns: usize) -> MapperLimits
    ensures clients { result.clients ≡ clients }
    ensures enough { turns + 100 ≤ result.seconds * 100 }
    ensures no_more { result.seconds * 100 ≤ turns + 200 }
{
    MapperLimits {
        clients,
        seconds: seconds_for(turns),
    }
}

fn run_server<R: Net + Wait + Clock>(
    rt: &R,
    alloc: Global,
    listener: LocalListener,
    limits: MapperLimits,
    stop: &AtomicBool,
) -> io::Result<()> {
    let mut server = Server::new(rt, alloc, listener.port, FIRST_CREATION, limits)?;
    server.add_listener(mio::net::TcpListener::from_std(listener.socket))?;
    serve(
        rt,
        alloc,
        &mut server,
        Duration::from_secs(WAIT_SECONDS),
        stop,
    )
}

/// Serves the clients of the port mapper at this listener and its port until it is asked to stop, which it sees within a second,
/// and at once where a connection comes. A node stays registered
/// as long as its connection does. Where it stops before it is asked to, the listener is closed: ListenFailed where the system
/// does not report what comes.
pub fn serve_mapper<R: Net + Wait + Clock>(
    rt: &R,
    alloc: Global,
    listener: LocalListener,
    limits: MapperLimits,
    stop: &AtomicBool,
) -> Result<(), RunError> {
    match run_server(rt, alloc, listener, limits, stop) {
        Ok(()) => Ok(()),
        Err(error) => Err(fault_of(error)),
    }
}
