//! One frame, read where what comes may not be a frame at all.

ghost use Rattle.std.specs.{Prelude.◌≡◌, Prelude.◌<◌, Prelude.IfErr, Prelude.length, Int.w16};
ghost use Rattle.dist_names.specs.Bytes.{number};
ghost use Rattle.dist_talk.specs.Bodies.{Fills, HearsBehind, HearsFrameOf, StandsFirst, tags_of};

use dist_frames::first_body;
use dist_messages::Side;
use dist_names::ByteString;
use dist_stream::{Limited, Stream, TurnError};
use std::alloc::Global;

// The tags of the accepting side: a status, an older challenge, a newer one, an acknowledgement. Source: ERTS User's Guide,
// Distribution Handshake. A length counts only before one of them: two bytes of another service may look like one, and nobody should
// wait for a body that never comes. Our own choice.
const OF_ACCEPTOR: [u8; 4] = [0x73, 0x6e, 0x4e, 0x61];

// The tags of the dialling side: an older name, a newer one, a status, a complement, a reply.
const OF_DIALLER: [u8; 5] = [0x6e, 0x4e, 0x73, 0x63, 0x72];

/// The tags of a side's messages.
pub fn tags_of(side: Side) -> &'static [u8]
    ensures { result.now ≡ tags_of side }
{
    match side {
        Side::Dialler => &OF_DIALLER,
        Side::Acceptor => &OF_ACCEPTOR,
    }
}

/// What came where a frame was awaited.
#[derive(Drop)]
pub enum Came {
    /// The body of a frame.
    Body(ByteString),
    /// Two bytes that are not the length of an awaited frame: the byte behind them begins no body. Nothing more was read.
    Front(u16),
    /// The stream gave no more inside the frame, after this many bytes of it.
    Stopped(TurnError, usize),
    /// No memory was left for the body.
    NoMemory,
}

// Fills the buffer. Where the stream gives no more: why, and how many bytes came before.
fn fill<S: Stream>(limited: &mut Limited<'_, S>, room: &mut [u8]) -> Result<(), (TurnError, usize)>
    ensures hears { Fills (S.meaning limited.old.stream.now) (S.meaning limited.new.stream.now) limited.old.left limited.new.left result room.new }
    ensures len { length room.new ≡ length room.old }
    ensures cut { IfErr result (λ stop. stop.1 < length room.new) }
    ensures loan { limited.new.stream.ghost_name ≡ limited.old.stream.ghost_name }
{
    let mut at = 0;
    while at < room.len() {
        match limited.read(&mut room[at..]) {
            Ok(count) => at += count,
            Err(fault) => return Err((fault, at)),
        }
    }
    Ok(())
}

// The number in the two bytes of a length.
#[tactic(auto, using(std::proofs::lemmas::Nat::be_bytes_2))]
fn header_length(header: [u8; 2]) -> u16
    ensures { number w16 result ≡ header }
{
    u16::from_be_bytes(header)
}

// Reads what stands behind a length: this many bytes where one of these tags begins them, else only the first.
fn read_behind<S: Stream>(
    alloc: Global,
    limited: &mut Limited<'_, S>,
    len: u16,
    tags: &[u8],
) -> Came
    requires { 0 < len }
    ensures hears { HearsBehind (S.meaning limited.old.stream.now) (S.meaning limited.new.stream.now) limited.old.left limited.new.left len tags.now result }
    ensures loan { limited.new.stream.ghost_name ≡ limited.old.stream.ghost_name }
{
    let mut tag = [0];
    if let Err((fault, _)) = fill(limited, &mut tag) {
        return Came::Stopped(fault, 2);
    }
    if !tags.contains(&tag[0]) {
        return Came::Front(len);
    }
    let Ok(mut body) = vec![in alloc; tag[0]; len as usize] else {
        return Came::NoMemory;
    };
    match fill(limited, &mut body[1..]) {
        Ok(()) => Came::Body(ByteString::from_vec(body)),
        Err((fault, at)) => Came::Stopped(fault, at + 3),
    }
}

/// Reads the next frame, where what comes may not be a frame at all: a length counts only if one of these tags begins the body, or
/// if it is 0. Otherwise only the length and the byte behind it are read, so that nobody waits for bytes that another
/// service never sends. It reads no byte behind the frame, and writes nothing.
///
/// Source: our own choice.
pub fn read_frame_of<S: Stream>(alloc: Global, limited: &mut Limited<'_, S>, tags: &[u8]) -> Came
    ensures hears { HearsFrameOf (S.meaning limited.old.stream.now) (S.meaning limited.new.stream.now) limited.old.left limited.new.left tags.now result }
    ensures loan { limited.new.stream.ghost_name ≡ limited.old.stream.ghost_name }
{
    let mut header = [0; 2];
    if let Err((fault, at)) = fill(limited, &mut header) {
        return Came::Stopped(fault, at);
    }
    match header_length(header) {
        0 => Came::Body(ByteString::new(alloc)),
        len => read_behind(alloc, limited, len, tags),
    }
}

/// What stands first in the bytes of a side.
#[derive(Clone, Copy)]
pub enum NextBody<'a> {
    /// A whole frame: its body.
    Whole(&'a [u8]),
    /// Two bytes that are not the length of a frame of a handshake.
    Front(u16),
    /// Not yet a whole frame.
    Open,
}

/// What stands first in these bytes of a side, by the same rule: a length counts only before one of the side's tags.
pub fn next_body(side: Side, bytes: &[u8]) -> NextBody<'_>
    ensures { StandsFirst side bytes.now result }
{
    match bytes {
        [high, low, tag, ..] if !tags_of(side).contains(tag) && (*high, *low) != (0, 0) => {
            NextBody::Front(header_length([*high, *low]))
        }
        _ => match first_body(bytes) {
            Some(body) => NextBody::Whole(body),
            None => NextBody::Open,
        },
    }
}
