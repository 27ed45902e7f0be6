//! Requests that clients send to a port mapper.

use crate::digits::{put_bytes, put_number, put_word};
use dist_epmd::Registry;
use dist_epmd_calls::{LookupError, Served, serve_registry};
use dist_stream::FaultStream;
use std::alloc::Global;

/// Serves the request of a stream on the connection with this number. Reports how it was served, the bytes that were written, the lines
/// of the nodes that are then registered, and the number of reads and writes.
pub fn put_served(
    alloc: Global,
    printed: &mut String,
    registry: &mut Registry,
    conn: u64,
    stream: &mut FaultStream,
    limit: usize,
) -> Option<()> {
    put_word(
        printed,
        how(serve_registry(alloc, stream, registry, conn, limit)),
    )?;
    put_bytes(alloc, printed, stream.output())?;
    put_word(printed, "names")?;
    put_bytes(alloc, printed, registry.lines(alloc).ok()?.as_slice())?;
    put_word(printed, "calls")?;
    put_number(printed, stream.calls())
}

fn how(served: Result<Served, LookupError>) -> &'static str {
    match served {
        Ok(Served::Registered) => "Registered",
        Ok(Served::Answered) => "Answered",
        Err(error) => error.name(),
    }
}
