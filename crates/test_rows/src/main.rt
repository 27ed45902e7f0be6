//! Plays rows of bytes: names, cookies and their digests, packets and handshake messages; and over streams in memory the registry and a
//! client of the port mapper, and a probe that talks with a node. The rows are files in the folder in which the program runs.
//!
//! What the rows expect is typed from the ERTS User's Guide (EPMD Protocol, Distribution Protocol), from captured handshakes, from
//! other programs (digests) and from the rules of `docs/PROTOCOL.md`. Each file is played with its bytes in one piece and then byte by
//! byte, except rows that name their pieces.
#![tactic(auto)]

mod asked;
mod cookies;
mod digits;
mod handshake;
mod mapper;
mod names;
mod packets;
mod readers;
mod refusals;
mod rows;
mod served;
mod streams;
mod talks;

use rows::Subject;
use std::process::ExitCode;
use std::{fs, io};

/// The files of rows, and their subjects.
const FILES: [(&str, Subject); 14] = [
    ("node_names", Subject::Names),
    ("cookies", Subject::Cookies),
    ("digests", Subject::Cookies),
    ("packets", Subject::Packets),
    ("handshake_messages", Subject::Handshake),
    ("registry_session", Subject::PortMapper),
    ("cut_registration", Subject::PortMapper),
    ("port_mapper_client", Subject::PortMapper),
    ("cut_answers", Subject::PortMapper),
    ("changed_messages", Subject::PortMapper),
    ("full_registry", Subject::PortMapper),
    ("talks", Subject::Talks),
    ("other_talks", Subject::Talks),
    ("broken_talks", Subject::Talks),
];

/// Prints how many rows each file has, or the first row with another result.
fn main(rt: HostRuntime) -> ExitCode {
    for (name, subject) in FILES.iter() {
        if !matches!(is_file_so(&rt, name, *subject), Ok(true)) {
            return ExitCode::FAILURE;
        }
    }
    ExitCode::SUCCESS
}

fn is_file_so(rt: &HostRuntime, name: &str, subject: Subject) -> io::Result<bool> {
    let text = fs::read_to_string(rt, name)?;
    let mut count = 0usize;
    for pieces in ["whole", "bytes"] {
        match rows::play_file(rt.alloc(), subject, &text, pieces) {
            Ok(rows) => count = rows,
            Err(row) => {
                println!(rt; "{name}, {pieces}: {row}")?;
                return Ok(false);
            }
        }
    }
    println!(rt; "{name}: {count} rows")?;
    Ok(true)
}
