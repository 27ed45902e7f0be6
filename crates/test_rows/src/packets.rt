//! Streams of packets after a handshake: `MOST STREAM`, the longest packet that is accepted, and the bytes.

ghost use Rattle.std.specs.Prelude.{◌<◌};

use crate::digits::{bytes_in, put_bytes, put_number, put_word, word};
use dist_frames::{PacketError, Packets};
use std::alloc::Global;

// More packets than any stream has.
const MOST_PACKETS: usize = 1000;

// How many bytes of these pieces come at once.
fn size_of(pieces: &str) -> usize
    ensures { 0 < result }
{
    if pieces == "whole" { usize::MAX } else { 1 }
}

/// Reports the packets of a stream, `-` for a tick, and what comes after them: `.` for nothing yet, or the length of a packet that is
/// too long.
pub fn put_packets(alloc: Global, printed: &mut String, case: &str, pieces: &str) -> Option<()> {
    let stream = bytes_in(alloc, word(case, 1))?;
    let mut packets = Packets::new(alloc, word(case, 0).parse::<usize>().ok()?);
    for piece in stream.chunks(size_of(pieces)) {
        packets.feed(piece).ok()?;
        move_out(alloc, printed, &mut packets)?;
    }
    put_end(printed, &packets)
}

// Takes out the packets that have arrived, and reports them.
fn move_out(alloc: Global, printed: &mut String, packets: &mut Packets) -> Option<()> {
    for _ in 0..MOST_PACKETS {
        let Ok(Some(packet)) = packets.next_packet() else {
            return Some(());
        };
        put_bytes(alloc, printed, &packet)?;
    }
    None
}

// Reports what comes after the packets.
fn put_end(printed: &mut String, packets: &Packets) -> Option<()> {
    match packets.front() {
        Ok(_) => put_word(printed, "."),
        Err(PacketError::TooLong(len)) => put_number(printed, len as u64),
        Err(PacketError::NoMemory) => None,
    }
}
