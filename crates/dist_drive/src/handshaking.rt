//! One end, driven until it is up.
ghost use Rattle.std.specs.Prelude.{◌≡◌, IfOk};
ghost use Rattle.dist_drive.specs.{Handshaking.IsUpWith, Handshaking.ShakesHands, Running.IsUpNow};

use crate::desk::Desk;
use crate::draws::Draws;
use crate::driving::{report_ending, run};
use crate::outcome::Ending;
use crate::reached::Reached;
use dist_core::{UpRecord, Why};
use dist_frames::fed_and_moved;
use dist_peers::EndId;
use dist_stream::Stream;
use std::alloc::{AllocError, Global};

// The record of the end that the newest reply brought up.
fn newest_record<D: Desk>(alloc: Global, desk: &D) -> Result<UpRecord, AllocError>
    requires { IsUpNow (D.facts.list desk.now) }
    ensures { IfOk result (IsUpWith (D.facts.list desk.now)) }
{
    let Some(reply) = desk.last() else {
        unreachable!()
    };
    let Some(record) = &reply.up else {
        unreachable!()
    };
    record.try_clone(alloc)
}

/// Drives an end over a stream, in at most `limit` reads and writes, until it is up, or closed, or no turn is left.
///
/// It does what `drive` does, in the same order, up to the frame whose reply brings the end up: then it returns that
/// reply's record, and the bytes that were read behind that frame. What was read is the frames that were handed on, and then
/// these bytes; the stream, the desk and what draws are the caller's again. Where the end does not come up, it ends as
/// `drive` does. Where no memory is left for the record of an end that came up, NoMemory is reported as a loss.
///
/// It is meant for an end that took no frame before. Source: our own choice.
pub fn handshake<S: Stream, D: Desk, W: Draws>(
    alloc: Global,
    stream: &mut S,
    desk: &mut D,
    draws: &mut W,
    end_: EndId,
    first: &[u8],
    limit: usize,
) -> Reached
    ensures shakes { ShakesHands D.facts W.gives
        (record { end_ = end_; first = first.now; limit = limit; stream = S.meaning stream.old; desk = desk.old; draws = draws.old })
        (record { stream = S.meaning stream.new; desk = desk.new; draws = draws.new })
        result }
    ensures base { D.base desk.new ≡ D.base desk.old }
    ensures serves { D.serves desk.new ≡ D.serves desk.old }
{
    fed_and_moved();
    match run(alloc, stream, desk, draws, end_, first, limit, true) {
        Ok(frames) => match newest_record(alloc, desk) {
            Ok(record) => Reached::Up {
                record,
                rest: frames.into_rest(),
            },
            Err(_) => Reached::Ended(report_ending(desk, end_, Ending::Fault(Why::NoMemory))),
        },
        Err(ending) => Reached::Ended(report_ending(desk, end_, ending)),
    }
}
