//! One side of a handshake over a connection, and whether that ends at once behind it.

ghost use Rattle.dist_talk.specs.Speaking.{other_side};
ghost use Rattle.distping.specs.Coming.{GoesOnAs, IsSpoken, LooksBehind};

use crate::links::attempt::ProbeStream;
use crate::links::looking::is_readable;
use crate::links::open_stream::OpenStream;
use dist_long_frames::LongFrames;
use dist_messages::Side;
use dist_stream::{DeadlineStream, Heard, Stream, deadline_after};
use dist_talk::{Handshake, HandshakeVerdict, HowEnded, OwnSide, other_side, speak};
use std::alloc::Global;
use std::time::Duration;

/// How many milliseconds an end is awaited. Our own choice: a node that refuses another after the handshake closes at once. A listener
/// waits twice as long, so that a probe that dials it ends first.
const MOMENT: i32 = 3;

/// How many milliseconds a read may take that finds something to read.
const READING: u64 = 10;

/// What was said over a connection, and the time that it took.
#[derive(Drop)]
pub struct TalkOutcome {
    /// What was said.
    pub handshake: Handshake,
    /// How much of its time the talk left.
    pub left: Duration,
    /// How long after our last message it ended.
    pub ended_after: Duration,
}

// Reads once, and notes in the handshake whether the other side of this connection has ended it.
#[tactic(auto, using(crate::proofs::Ends::first_stays))]
fn look_for_end<S: Stream>(stream: &mut S, own: &OwnSide<'_>, handshake: &mut Handshake)
    ensures goes_on { GoesOnAs handshake.old handshake.new }
    // An end is noted exactly if the read gave no bytes, or failed.
    ensures looks { LooksBehind (other_side own.now.side) (S.meaning stream.old) (S.meaning stream.new) handshake.old handshake.new }
{
    match stream.read(&mut [0]) {
        Heard::Bytes(0) => handshake.end(other_side(own.side), HowEnded::Closed),
        Heard::Failed => handshake.end(other_side(own.side), HowEnded::Reset),
        Heard::Bytes(_) | Heard::Quiet => {}
    }
}

// After a handshake was made: waits a moment, and notes in it if the other side ends the connection.
#[tactic(auto, using(crate::proofs::Ends::goes_on))]
fn note_end(rt: &HostRuntime, stream: ProbeStream<'_>, own: &OwnSide<'_>, handshake: &mut Handshake)
    ensures { GoesOnAs handshake.old handshake.new }
{
    let moment = match own.side {
        Side::Dialler => MOMENT,
        Side::Acceptor => 2 * MOMENT,
    };
    if handshake.verdict(&own.terms) == HandshakeVerdict::Up
        && is_readable(stream.get_ref().get_ref(), moment)
        && let Ok(until) = deadline_after(rt, Duration::from_millis(READING))
    {
        let mut stream = DeadlineStream::new(stream.into_inner(), rt, until);
        look_for_end(&mut stream, own, handshake);
    }
}

// Speaks this side of a handshake over a connection. In a tunnel of TLS the frames have lengths of 4 bytes.
fn speak_over<'a>(
    alloc: Global,
    stream: OpenStream<'a>,
    own: &OwnSide<'_>,
    limit: usize,
    is_tunnelled: bool,
) -> (Handshake, OpenStream<'a>)
    ensures { IsSpoken own.now limit result.0 }
{
    let mut stream = stream;
    if !is_tunnelled {
        let handshake = speak(alloc, &mut stream, own, limit);
        return (handshake, stream);
    }
    let mut frames = LongFrames::new(stream);
    let handshake = speak(alloc, &mut frames, own, limit);
    (handshake, frames.into_inner())
}

/// Speaks this side of a handshake, in at most this many reads and writes. After a handshake that was made it waits a moment for an end.
pub fn speak_with(
    rt: &HostRuntime,
    alloc: Global,
    stream: ProbeStream<'_>,
    own: &OwnSide<'_>,
    limit: usize,
    is_tunnelled: bool,
) -> TalkOutcome
    ensures { IsSpoken own.now limit result.handshake }
{
    let stream = OpenStream::new(stream, own.side);
    let (mut handshake, stream) = speak_over(alloc, stream, own, limit, is_tunnelled);
    let ended_after = stream.since_write();
    let stream = stream.into_inner();
    let left = stream.time_left();
    note_end(rt, stream, own, &mut handshake);
    TalkOutcome {
        handshake,
        left,
        ended_after,
    }
}
