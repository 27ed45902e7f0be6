//! The file of names: a word as on the command line on each line. A `#` begins a comment; a line without a name is skipped.

use crate::fault::Fault;
use crate::refusal::{Refusal, refuse};
use crate::target_words::{BadTarget, GivenPort, push_target};
use dist_cluster::{Target, word_in};
use dist_names::quote;
use std::alloc::{AllocError, Global};
use std::fs::File;
use std::io::{ErrorKind, Read};

/// The most bytes of a file of names: enough for as many names as are dialled, each with a comment of several hundred bytes. Our own
/// choice.
const MOST_BYTES: u64 = 1 << 20;

// The whole file.
fn read_all<F: Read + Drop>(alloc: Global, file: F) -> Result<Vec<u8>, Fault> {
    let mut bytes = Vec::new(alloc);
    let mut front = file.take(MOST_BYTES + 1);
    match front.read_to_end(&mut bytes) {
        Ok(count) if count as u64 <= MOST_BYTES => Ok(bytes),
        Ok(_) => Err(Fault::RosterTooLong),
        Err(error) if error.kind() == ErrorKind::OutOfMemory => Err(Fault::NoMemory),
        Err(_) => Err(Fault::RosterUnread),
    }
}

// The whole file at this path; `-` is standard input.
fn bytes_at(rt: &HostRuntime, path: &str) -> Result<Vec<u8>, Fault> {
    if path == "-" {
        return read_all(rt.alloc(), rt.stdin());
    }
    match File::open(rt, path) {
        Ok(file) => read_all(rt.alloc(), file),
        Err(_) => Err(Fault::RosterClosed),
    }
}

// The sentence about a line of a file that names no target.
fn line_sentence(
    alloc: Global,
    path: &str,
    number: u64,
    bad: BadTarget,
    word: &[u8],
) -> Result<String, AllocError> {
    let file = quote(alloc, path.as_bytes())?;
    let quoted = quote(alloc, word)?;
    let rule = bad.rule(word.starts_with(b"@"));
    format!(in alloc; "--nodes {file}, line {number}: {rule}{quoted}")
}

/// Adds the targets that the lines of a file name, and the ports that they give.
pub fn read_roster(
    rt: &HostRuntime,
    path: &str,
    targets: &mut Vec<Target>,
    ports: &mut Vec<GivenPort>,
) -> Result<(), Refusal> {
    let alloc = rt.alloc();
    let bytes = bytes_at(rt, path)?;
    let mut number = 0u64;
    for line in bytes.split(|byte| *byte == b'\n') {
        number = number.saturating_add(1);
        let word = word_in(line);
        if word.is_empty() {
            continue;
        }
        if let Some(bad) = push_target(alloc, targets, ports, word)? {
            return Err(refuse(line_sentence(alloc, path, number, bad, word)));
        }
    }
    Ok(())
}
