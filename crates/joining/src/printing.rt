//! What is printed. A thread of its own prints packets, so that an output that is not read delays no tick.

use crate::fault::Fault;
use crossbeam_channel::{Receiver, Sender, bounded};
use dist_program::Resolving;
use distribution::{Dflag, Flags, UpRecord};
use std::alloc::{AllocError, Global};
use std::io::{ErrorKind, Write};
use std::sync::Wait;
use std::thread::{self, JoinHandle};

/// The most packets whose lines wait to be printed. While that many wait, nothing is read from the link.
const MOST_WAITING: usize = 64;

/// Prints a text.
pub fn print(rt: &HostRuntime, text: &str) -> Result<(), Fault> {
    match rt.stdout().write_all(text.as_bytes()) {
        Ok(()) => Ok(()),
        Err(error) if error.kind() == ErrorKind::OutOfMemory => Err(Fault::NoMemory),
        Err(_) => Err(Fault::WriteFailed),
    }
}

// Prints a text, and then a line for each packet whose length arrives, until no more can come or a line can't be printed. A packet of
// no bytes is a tick, and has no line.
fn print_packets<R: Wait>(
    rt: &HostRuntime,
    own: &R,
    first: &str,
    lengths: &Receiver<usize>,
) -> Result<(), Fault> {
    print(rt, first)?;
    for len in lengths.iter(own) {
        if 0 < len {
            print(rt, &format!(in rt.alloc(); "packet {len}\n")?)?;
        }
    }
    Ok(())
}

// Appends the names of these flags, and ends the line.
fn push_flags(text: &mut String, flags: Flags) -> Result<(), AllocError> {
    for flag in &Dflag::all() {
        if flags.has(flag.flags()) {
            text.push_str(" ")?;
            text.push_str(flag.name())?;
        }
    }
    text.push_str("\n")
}

// The lines for a peer that was joined: its name, and its creation if that is known; the flags that both announced.
fn up_text(alloc: Global, record: &UpRecord) -> Result<String, AllocError> {
    let peer = std::str::from_utf8(record.peer.bytes()).unwrap_or("?");
    let mut text = match record.creation {
        Some(creation) => format!(in alloc; "up {peer} creation {}\nflags", creation.0)?,
        None => format!(in alloc; "up {peer}\nflags")?,
    };
    push_flags(&mut text, record.common)?;
    Ok(text)
}

/// Starts a thread that prints the lines for a peer, and a line for each packet. Returns where the length of each packet is sent, and
/// the thread. `own` is the same runtime, for calls that may wait.
pub fn start_printing<R: Resolving + Copy + Send + 'static>(
    rt: HostRuntime,
    own: R,
    record: &UpRecord,
) -> Result<(Sender<usize>, JoinHandle<Result<(), Fault>>), Fault> {
    let alloc = rt.alloc();
    let up = up_text(alloc, record)?;
    let (lengths, waiting) = bounded(alloc, MOST_WAITING)?;
    match thread::spawn(&own, move || print_packets(&rt, &own, &up, &waiting)) {
        Ok(printer) => Ok((lengths, printer)),
        Err(_) => Err(Fault::SystemFailed),
    }
}
