//! Rows of the port mapper (EPMD Protocol): `WHO BYTES PIECES LIMIT FAULT NUMBER`; the last two or four words may be missing.
//!
//! WHO is a question of a client, or the number of a connection on which a request comes. LIMIT is a number of turns. Beside these
//! rows there are `registry PORT FIRST`, a new registry with its first creation, and `closed NUMBER NAME`, a connection that is
//! closed, and the name that it is known to have registered, if there is one.

use crate::asked::put_asked;
use crate::digits::{bytes_in, word};
use crate::served::put_served;
use crate::streams::{pieces_of, stream_of};
use dist_epmd::Registry;
use dist_stream::FaultStream;
use std::alloc::Global;

/// Reports what is answered; nothing for a new registry and a connection that is closed.
pub fn put_mapper_answer(
    alloc: Global,
    printed: &mut String,
    registry: &mut Registry,
    case: &str,
    pieces: &str,
) -> Option<()> {
    match word(case, 0) {
        "registry" => *registry = new_registry(alloc, case)?,
        "closed" => close_connection(alloc, registry, case)?,
        _ => put_call(
            alloc,
            printed,
            registry,
            case,
            &mut stream_in(alloc, case, pieces)?,
        )?,
    }
    Some(())
}

fn put_call(
    alloc: Global,
    printed: &mut String,
    registry: &mut Registry,
    case: &str,
    stream: &mut FaultStream,
) -> Option<()> {
    let limit = word(case, 3).parse::<usize>().unwrap_or(100_000);
    match word(case, 0).parse::<u64>() {
        Ok(conn) => put_served(alloc, printed, registry, conn, stream, limit),
        Err(_) => put_asked(alloc, printed, case, stream, limit),
    }
}

fn stream_in(alloc: Global, case: &str, pieces: &str) -> Option<FaultStream> {
    let pieces = pieces_of(word(case, 2), pieces);
    stream_of(alloc, word(case, 1), pieces, word(case, 4), word(case, 5))
}

fn new_registry(alloc: Global, case: &str) -> Option<Registry> {
    let port = word(case, 1).parse::<u16>().ok()?;
    let first = word(case, 2).parse::<u32>().ok()?;
    Some(Registry::new(alloc, port, first))
}

fn close_connection(alloc: Global, registry: &mut Registry, case: &str) -> Option<()> {
    let conn = word(case, 1).parse::<u64>().ok()?;
    match word(case, 2) {
        "" => registry.closed(conn),
        name => registry.closed_as(conn, &bytes_in(alloc, name)?),
    }
    Some(())
}
