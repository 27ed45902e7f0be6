//! All addresses of a host, from a resolver that may be silent.
//!
//! The C library's resolver takes no limit: it asks each name server for seconds. So a thread asks it, and is left alone once the
//! time is over. It then goes on until the resolver answers, or the program ends; it has a copy of the name, and no lock that
//! others wait for.

use crate::host_error::HostError;
use dist_stream::{deadline_after, time_left};
use std::alloc::{AllocError, Global};
use std::io::{self, ErrorKind};
use std::net::{IpAddr, Net, SocketAddr, ToSocketAddrs};
use std::sync::{Arc, OnceLock, Wait};
use std::thread::{self, Parker, Threads};
use std::time::{Clock, Duration};

/// What a lookup with a limit uses of the system besides the resolver: a thread, waiting and the clock.
pub trait Resolving: Threads + Wait + Clock {}

impl<T: Threads + Wait + Clock> Resolving for T {}

/// What the resolver answered: addresses at port 0 in its order, at least one and each once, or why there are none.
pub type Addresses = Result<Vec<SocketAddr>, HostError>;

// Where the thread leaves the answer, and where the caller sleeps until it is there.
#[derive(Drop)]
struct Handover {
    answer: OnceLock<Addresses>,
    parker: Parker,
}

// What the system says where it has no address for a name. The resolver's error has no number for this.
const NO_NAME: [&str; 2] = [
    "Name or service not known",
    "No address associated with hostname",
];

// Whether the system says that there is no address for a name.
fn is_no_name(text: &str) -> bool {
    NO_NAME.iter().any(|end| text.ends_with(*end))
}

// Whether the process, or the whole system, may open no more descriptors: EMFILE, ENFILE.
fn lacks_descriptors(error: &io::Error) -> bool {
    matches!(error.raw_os_error(), Some(23 | 24))
}

// What an error of the resolver means.
fn host_error(alloc: Global, error: &io::Error) -> HostError {
    if error.kind() == ErrorKind::OutOfMemory {
        return HostError::NoMemory;
    }
    if lacks_descriptors(error) {
        return HostError::NoDescriptors;
    }
    match format!(in alloc; "{error}") {
        Ok(text) if is_no_name(&text) => HostError::NoName,
        Ok(_) => HostError::Failed,
        Err(_) => HostError::NoMemory,
    }
}

// Adds an address, unless it is there already.
fn push_new(addresses: &mut Vec<SocketAddr>, address: SocketAddr) -> Result<(), HostError> {
    if !addresses.contains(&address) {
        addresses.push(address)?;
    }
    Ok(())
}

// The resolver's answer, however long it takes: each address once, in its order.
fn ask_resolver<R: Net>(rt: &R, alloc: Global, host: &str) -> Addresses {
    let found = match (host, 0u16).to_socket_addrs(rt) {
        Ok(found) => found,
        Err(error) => return Err(host_error(alloc, &error)),
    };
    let mut addresses = Vec::new(alloc);
    for address in found {
        push_new(&mut addresses, address)?;
    }
    if addresses.is_empty() {
        return Err(HostError::NoName);
    }
    Ok(addresses)
}

// Leaves the answer where the caller waits for it.
fn leave_answer(desk: &Handover, answer: Addresses) {
    let _ = desk.answer.try_set(answer);
    desk.parker.unpark();
}

fn copy_of(alloc: Global, answer: &Addresses) -> Addresses {
    match answer {
        Ok(addresses) => Ok(Vec::from_slice(alloc, addresses.as_slice())?),
        Err(error) => Err(*error),
    }
}

// Waits for the answer, at most this long.
fn await_answer<R: Resolving>(
    rt: &R,
    alloc: Global,
    desk: &Handover,
    limit: Duration,
) -> Addresses {
    let Ok(until) = deadline_after(rt, limit) else {
        return Err(HostError::Failed);
    };
    for _ in rt.forever() {
        if let Some(answer) = desk.answer.get() {
            return copy_of(alloc, answer);
        }
        let left = time_left(rt, until);
        if left.is_zero() {
            return Err(HostError::Silent);
        }
        desk.parker.park_timeout(rt, left);
    }
    unreachable!()
}

// Starts a thread that asks the resolver. `None` where the system has no thread.
fn start_asking<R: Resolving>(
    rt: &R,
    own: HostRuntime,
    theirs: Arc<Handover, Global>,
    host: String,
) -> Result<(), HostError> {
    let asking = thread::spawn(rt, move || {
        leave_answer(&theirs, ask_resolver(&own, own.alloc(), &host))
    });
    match asking {
        Ok(_) => Ok(()),
        Err(_) => Err(HostError::NoMemory),
    }
}

// Asks the resolver in a thread, and waits for its answer, at most this long.
fn ask_in_thread<R: Resolving>(
    rt: &R,
    own: HostRuntime,
    host: String,
    limit: Duration,
) -> Addresses {
    let alloc = own.alloc();
    let desk = Arc::new(
        alloc,
        Handover {
            answer: OnceLock::new(),
            parker: Parker::new(),
        },
    )?;
    let theirs = Arc::try_clone(&desk)?;
    start_asking(rt, own, theirs, host)?;
    await_answer(rt, alloc, &desk, limit)
}

/// The host without the square brackets that enclose an IPv6 address in a URL.
pub fn without_brackets(host: &str) -> &str {
    match host.strip_prefix('[') {
        Some(rest) => rest.strip_suffix(']').unwrap_or(host),
        None => host,
    }
}

/// All addresses of a host at port 0, in the resolver's order, each once: those that it gives within this time. An address, also an
/// IPv6 one in square brackets, stands for itself, and nobody is asked.
///
/// `rt` starts a thread, waits for it and reads the clock. `own` goes into that thread, which asks the resolver through it; memory is
/// taken from it too. Both are handles of one runtime.
pub fn lookup_host<R: Resolving>(
    rt: &R,
    own: HostRuntime,
    host: &str,
    limit: Duration,
) -> Addresses {
    let alloc = own.alloc();
    let host = without_brackets(host);
    match host.parse::<IpAddr>() {
        Ok(ip) => Ok(vec![in alloc; SocketAddr::new(ip, 0)]?),
        Err(_) => ask_in_thread(rt, own, host.to_owned(alloc)?, limit),
    }
}
