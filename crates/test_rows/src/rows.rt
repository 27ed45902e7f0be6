//! Files of rows. A line that is empty or begins with `#` is no row; any other is `CASE => WANTED`, or just a case if nothing is reported.

use crate::cookies::put_cookie;
use crate::handshake::put_message;
use crate::mapper::put_mapper_answer;
use crate::names::put_name;
use crate::packets::put_packets;
use crate::talks::put_talk;
use dist_epmd::Registry;
use std::alloc::Global;

/// The subject of a file's rows. The module of each says what its rows are.
#[derive(Clone, Copy)]
pub enum Subject {
    Names,
    Cookies,
    Packets,
    Handshake,
    PortMapper,
    Talks,
}

/// How many rows a file has, or the first with another result if bytes come in these pieces, unless a row names its own.
pub fn play_file<'t>(
    alloc: Global,
    subject: Subject,
    text: &'t str,
    pieces: &str,
) -> Result<usize, &'t str> {
    play_rows(
        &mut Registry::new(alloc, 0, 0),
        alloc,
        subject,
        text,
        pieces,
    )
}

fn play_rows<'t>(
    registry: &mut Registry,
    alloc: Global,
    subject: Subject,
    text: &'t str,
    pieces: &str,
) -> Result<usize, &'t str> {
    let mut rows = 0usize;
    for line in text.split('\n') {
        if line.is_empty() || line.starts_with('#') {
            continue;
        }
        if !is_so(alloc, subject, registry, line, pieces) {
            return Err(line);
        }
        rows = rows.saturating_add(1);
    }
    Ok(rows)
}

// Whether what is reported begins with the wanted words.
fn is_so(
    alloc: Global,
    subject: Subject,
    registry: &mut Registry,
    row: &str,
    pieces: &str,
) -> bool {
    let (case, wanted) = row.split_once(" => ").unwrap_or((row, ""));
    let mut printed = String::new(alloc);
    put_answer(alloc, &mut printed, subject, registry, case, pieces).is_some()
        && begins(&printed, wanted)
}

fn begins(printed: &str, wanted: &str) -> bool {
    match printed.strip_prefix(wanted) {
        Some(rest) => rest.is_empty() || rest.starts_with(' '),
        None => false,
    }
}

// Plays a case, and reports the result. `None`, here and below: memory was refused, or it is not a row.
fn put_answer(
    alloc: Global,
    printed: &mut String,
    subject: Subject,
    registry: &mut Registry,
    case: &str,
    pieces: &str,
) -> Option<()> {
    match subject {
        Subject::Names => put_name(alloc, printed, case),
        Subject::Cookies => put_cookie(alloc, printed, case, pieces),
        Subject::Packets => put_packets(alloc, printed, case, pieces),
        Subject::Handshake => put_message(alloc, printed, case),
        Subject::PortMapper => put_mapper_answer(alloc, printed, registry, case, pieces),
        Subject::Talks => put_talk(alloc, printed, case, pieces),
    }
}
