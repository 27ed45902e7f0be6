//! Streams over memory. Their bytes come in PIECES: `whole`, `bytes` for one byte each way, `deaf` if nothing arrives, `mute` if
//! nothing can be written, or how many bytes a write takes. A FAULT is `read` or `write`: the one with this NUMBER fails.

use crate::digits::bytes_in;
use dist_stream::FaultStream;
use std::alloc::Global;

/// The pieces that a row names, or else those of the run.
pub fn pieces_of<'p>(said: &'p str, pieces: &'p str) -> &'p str {
    if said.is_empty() { pieces } else { said }
}

/// A stream that gives these bytes. Without a fault in the row none occurs.
pub fn stream_of(
    alloc: Global,
    bytes: &str,
    pieces: &str,
    fault: &str,
    number: &str,
) -> Option<FaultStream> {
    let mut stream = FaultStream::new(alloc, bytes_in(alloc, bytes)?);
    set_pieces(&mut stream, pieces)?;
    match fault {
        "read" => stream.fail_read = number.parse::<u64>().ok()?,
        "write" => stream.fail_write = number.parse::<u64>().ok()?,
        _ => {}
    }
    Some(stream)
}

fn set_pieces(stream: &mut FaultStream, pieces: &str) -> Option<()> {
    let all = usize::MAX;
    let (heard, taken) = match pieces.as_bytes().first() {
        Some(b'w') => (all, all),
        Some(b'b') => (1, 1),
        Some(b'd') => (0, all),
        Some(b'm') => (all, 0),
        _ => (all, pieces.parse::<usize>().ok()?),
    };
    stream.read_sizes.push(heard).ok()?;
    stream.write_sizes.push(taken).ok()
}
