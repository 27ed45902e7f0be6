//! One end, driven over a stream.
ghost use Rattle.std.specs.Prelude.{◌≡◌, ℕ, ◌<◌, ◌≤◌, ◌+◌, ◌++◌, ◌∷◌, [], true, List, MatchOption, Err, IfOk, IfErr, OnOk};
ghost use Rattle.dist_drive.specs.{Desks.Step, Driven.Carries, Driven.Drives, Driven.IsOnlyGone, Driven.LeavesUnread, Driven.ReportsLoss};
ghost use Rattle.dist_drive.specs.{Driven.outcome_of, Running.after_reply, Running.after_step, Running.ending_of_refusal, Running.ending_of_stream};
ghost use Rattle.dist_drive.specs.{Running.own_why, Running.SaysReply, Running.HandsOn, Running.Goes, Running.GoesOn, Running.EndsSo, Running.HearsPiece};
ghost use Rattle.dist_frames.specs.{Reader.next_body, Reader.without_next, Reader.to_come, Reader.with_bytes, Reader.without_count, History.IsBytes};
ghost use Rattle.dist_stream.specs.Turns.{fault_of};

use crate::desk::Desk;
use crate::draws::Draws;
use crate::outcome::{Ending, Outcome};
use dist_core::{Event, Reply, StepError, Still, Why};
use dist_frames::{Frames, bodies_of_stream, fed_and_moved};
use dist_names::ByteString;
use dist_peers::EndId;
use dist_stream::{Limited, Stream, TurnError};
use std::alloc::Global;

// Why the call ends where the desk refused a frame.
fn ending_of_refusal(error: StepError) -> Ending
    ensures { result ≡ ending_of_refusal error }
{
    match error {
        StepError::Gone(why) => Ending::Gone(why),
        StepError::NoMemory => Ending::Fault(Why::NoMemory),
        _ => Ending::Fault(Why::GaveUp),
    }
}

// Why the call ends where a read or a write failed.
fn ending_of_stream(error: TurnError) -> Ending
    ensures { result ≡ ending_of_stream error }
{
    match error {
        TurnError::Limit => Ending::Limit,
        TurnError::Ended => Ending::Fault(Why::Ended),
        TurnError::ReadFailed => Ending::Fault(Why::ReadFailed),
        TurnError::WriteFailed => Ending::Fault(Why::WriteFailed),
    }
}

// Why a reply closed its own end.
fn own_why(reply: &Reply, end_: EndId) -> Option<Why>
    ensures { result ≡ own_why end_ reply.now.closed }
{
    match reply.closed {
        Some((id, why)) => { if id.0 == end_.0 { Some(why) } else { None } }
        None => None,
    }
}

// Whether the call goes on after a reply was written, or not whole.
fn after_reply(own: Option<Why>, written: Result<(), TurnError>) -> Result<(), Ending>
    ensures { result ≡ after_reply own (fault_of written) }
{
    match written {
        Err(TurnError::Limit) => Err(Ending::Limit),
        Err(_) => match own {
            Some(why) => Err(Ending::Shut(why)),
            None => Err(Ending::Fault(Why::WriteFailed)),
        },
        Ok(()) => match own {
            Some(why) => Err(Ending::Shut(why)),
            None => Ok(()),
        },
    }
}

// The most bytes of one read.
const PIECE: usize = 4096;

// Writes what a reply says. Whether it brought its end up.
fn say_reply<S: Stream>(
    limited: &mut Limited<'_, S>,
    reply: &Reply,
    end_: EndId,
) -> Result<bool, Ending>
    ensures says { SaysReply end_ reply.now (S.meaning limited.old.stream.now) (S.meaning limited.new.stream.now)
        limited.old.left limited.new.left result }
    ensures loan { limited.new.stream.ghost_name ≡ limited.old.stream.ghost_name }
{
    let written = limited.write_all(reply.say.as_slice());
    after_reply(own_why(reply, end_), written)?;
    Ok(reply.up.is_some())
}

// Hands a frame on with a number of its own, and writes what the reply says. Whether it brought the end up.
fn hand_on<S: Stream, D: Desk, W: Draws>(
    limited: &mut Limited<'_, S>,
    desk: &mut D,
    draws: &mut W,
    end_: EndId,
    body: ByteString,
) -> Result<bool, Ending>
    ensures hands { HandsOn D.facts W.gives end_ body
        (record { stream = S.meaning limited.old.stream.now; left = limited.old.left; desk = desk.old; draws = draws.old })
        (record { stream = S.meaning limited.new.stream.now; left = limited.new.left; desk = desk.new; draws = draws.new })
        result }
    ensures turns { limited.new.left ≤ limited.old.left }
    ensures base { D.base desk.new ≡ D.base desk.old }
    ensures serves { D.serves desk.new ≡ D.serves desk.old }
    ensures loan { limited.new.stream.ghost_name ≡ limited.old.stream.ghost_name }
{
    let fresh = draws.draw();
    match desk.step(Event::Frame { end_, body }, fresh) {
        Ok(()) => {}
        Err(error) => return Err(ending_of_refusal(error)),
    }
    let Some(reply) = desk.last() else {
        unreachable!()
    };
    say_reply(limited, reply, end_)
}

// The next whole frame that came.
fn next_frame(frames: &mut Frames) -> Result<Option<ByteString>, Ending>
    ensures next { IfOk result (λ body. (body ≡ next_body frames.old) × (frames.new ≡ without_next frames.old)) }
    ensures first { IfOk result (λ body. MatchOption body (to_come frames.old ≡ []) (λ b. to_come frames.old ≡ b ∷ to_come frames.new)) }
    ensures err { IfErr result (λ e. (e ≡ Ending.Fault Why.NoMemory) × (frames.new ≡ frames.old)) }
{
    match frames.next_short() {
        Ok(Some(body)) => Ok(Some(ByteString::from_vec(body))),
        Ok(None) => Ok(None),
        Err(_) => Err(Ending::Fault(Why::NoMemory)),
    }
}

// Hands on each whole frame that came, up to one whose reply brings the end up. Whether one did.
fn hand_on_all<S: Stream, D: Desk, W: Draws>(
    limited: &mut Limited<'_, S>,
    desk: &mut D,
    draws: &mut W,
    end_: EndId,
    frames: &mut Frames,
) -> Result<bool, Ending>
    ensures runs { IfOk result (GoesOn D.facts W.gives end_
        (record { stream = S.meaning limited.old.stream.now; left = limited.old.left; desk = desk.old; draws = draws.old }) frames.old
        (record { stream = S.meaning limited.new.stream.now; left = limited.new.left; desk = desk.new; draws = draws.new }) frames.new) }
    ensures all { IfOk result (λ up. to_come (after_step up frames.new) ≡ []) }
    ensures turns { limited.new.left ≤ limited.old.left }
    ensures ends { IfErr result (EndsSo D.facts W.gives end_
        (record { stream = S.meaning limited.old.stream.now; left = limited.old.left; desk = desk.old; draws = draws.old }) frames.old
        (record { stream = S.meaning limited.new.stream.now; desk = desk.new; draws = draws.new })) }
    ensures base { D.base desk.new ≡ D.base desk.old }
    ensures serves { D.serves desk.new ≡ D.serves desk.old }
    ensures loan { limited.new.stream.ghost_name ≡ limited.old.stream.ghost_name }
{
    fed_and_moved();
    while let Some(body) = next_frame(frames)? {
        if hand_on(limited, desk, draws, end_, body)? {
            return Ok(true);
        }
    }
    Ok(false)
}

// Gives a piece to the reader. Packets are dropped at once.
fn keep_piece(frames: &mut Frames, piece: &[u8]) -> Result<(), Ending>
    ensures ok { OnOk result (frames.new ≡ without_count (with_bytes frames.old piece.now)) }
    ensures err { IfErr result (λ e. e ≡ Ending.Fault Why.NoMemory) }
    ensures bytes { IsBytes piece.now }
{
    match frames.feed(piece) {
        Ok(()) => {
            frames.skip_long();
            Ok(())
        }
        Err(_) => Err(Ending::Fault(Why::NoMemory)),
    }
}

// Reads a piece, and gives it to the reader.
fn hear<S: Stream>(limited: &mut Limited<'_, S>, frames: &mut Frames) -> Result<(), Ending>
    ensures hears { HearsPiece (S.meaning limited.old.stream.now) (S.meaning limited.new.stream.now) limited.old.left limited.new.left
        frames.old frames.new result }
    ensures turn { OnOk result (limited.old.left ≡ limited.new.left + 1) }
    ensures loan { limited.new.stream.ghost_name ≡ limited.old.stream.ghost_name }
{
    let mut room = [0u8; PIECE];
    match limited.read(&mut room) {
        Ok(count) => keep_piece(frames, &room[..count]),
        Err(error) => Err(ending_of_stream(error)),
    }
}

// Reads a piece, and hands on what came whole, unless the end is closed. Whether a frame brought the end up.
fn turn<S: Stream, D: Desk, W: Draws>(
    limited: &mut Limited<'_, S>,
    desk: &mut D,
    draws: &mut W,
    end_: EndId,
    frames: &mut Frames,
) -> Result<bool, Ending>
    ensures runs { IfOk result (λ up. to_come frames.old ≡ [] → GoesOn D.facts W.gives end_
        (record { stream = S.meaning limited.old.stream.now; left = limited.old.left; desk = desk.old; draws = draws.old }) frames.old
        (record { stream = S.meaning limited.new.stream.now; left = limited.new.left; desk = desk.new; draws = draws.new }) frames.new up) }
    ensures all { IfOk result (λ up. to_come (after_step up frames.new) ≡ []) }
    ensures ends { IfErr result (λ e. to_come frames.old ≡ [] → EndsSo D.facts W.gives end_
        (record { stream = S.meaning limited.old.stream.now; left = limited.old.left; desk = desk.old; draws = draws.old }) frames.old
        (record { stream = S.meaning limited.new.stream.now; desk = desk.new; draws = draws.new }) e) }
    ensures fewer { OnOk result (limited.new.left < limited.old.left) }
    ensures gone { IsOnlyGone D.facts desk.old end_ →
        ((w : Why) × (result ≡ Err (Ending.Gone w))) × (S.meaning limited.new.stream.now ≡ S.meaning limited.old.stream.now) }
    ensures base { D.base desk.new ≡ D.base desk.old }
    ensures serves { D.serves desk.new ≡ D.serves desk.old }
    ensures loan { limited.new.stream.ghost_name ≡ limited.old.stream.ghost_name }
{
    fed_and_moved();
    if let Still::Gone(why) = desk.still(end_) {
        return Err(Ending::Gone(why));
    }
    match hear(limited, frames) {
        Ok(()) => hand_on_all(limited, desk, draws, end_, frames),
        Err(ending) => Err(ending),
    }
}

// Drives until the call ends, but for the loss that is then reported. With `until_up` the frame whose reply brings the end
// up is the last one, and the reader holds what came behind it.
pub fn run<S: Stream, D: Desk, W: Draws>(
    alloc: Global,
    stream: &mut S,
    desk: &mut D,
    draws: &mut W,
    end_: EndId,
    first: &[u8],
    limit: usize,
    until_up: bool,
) -> Result<Frames, Ending>
    ensures only { OnOk result (until_up ≡ true) }
    ensures up { IfOk result (λ frames. (left : ℕ) × Goes D.facts W.gives
        (record { end_ = end_; first = first.now; limit = limit; stream = S.meaning stream.old; desk = desk.old; draws = draws.old })
        (record { stream = S.meaning stream.new; left = left; desk = desk.new; draws = draws.new })
        frames true) }
    ensures carries { IfErr result (Carries D.facts W.gives
        (record { end_ = end_; first = first.now; limit = limit; stream = S.meaning stream.old; desk = desk.old; draws = draws.old })
        (record { stream = S.meaning stream.new; desk = desk.new; draws = draws.new })) }
    ensures gone { IsOnlyGone D.facts desk.old end_ → IfErr result (LeavesUnread first.now (S.meaning stream.old) (S.meaning stream.new)) }
    ensures not_gone { OnOk result (IsOnlyGone D.facts desk.old end_ → ⊥) }
    ensures base { D.base desk.new ≡ D.base desk.old }
    ensures serves { D.serves desk.new ≡ D.serves desk.old }
{
    fed_and_moved();
    bodies_of_stream();
    let mut limited = Limited {
        stream,
        left: limit,
    };
    if let Err(error) = limited.write_all(first) {
        return Err(ending_of_stream(error));
    }
    let mut frames = Frames::new(alloc);
    loop {
        if turn(&mut limited, desk, draws, end_, &mut frames)? {
            if until_up {
                return Ok(frames);
            }
            frames.to_linked();
        }
    }
}

// Reports a fault of the call's own as a loss. How the call ended.
pub fn report_ending<D: Desk>(desk: &mut D, end_: EndId, ending: Ending) -> Outcome
    ensures noted { (losses : List Step) × (D.facts.list desk.new ≡ D.facts.list desk.old ++ losses) × ReportsLoss D.facts end_ desk.old ending losses }
    ensures outcome { result ≡ outcome_of ending }
    ensures base { D.base desk.new ≡ D.base desk.old }
    ensures serves { D.serves desk.new ≡ D.serves desk.old }
{
    match ending {
        Ending::Limit => Outcome::Limit,
        Ending::Shut(why) => Outcome::Closed(why),
        Ending::Gone(why) => Outcome::Closed(why),
        Ending::Fault(why) => {
            let _ = desk.step(Event::Lost { end_, why }, 0);
            Outcome::Closed(why)
        }
    }
}

/// Drives an end over a stream, in at most `limit` reads and writes, until it is closed or no turn is left.
///
/// It writes `first`: what the end sent when its connection was there, and nothing for an accepted end. Then, again and
/// again, it asks the desk how the end stands, reads a piece of at most 4,096 bytes, and hands each whole frame in it on,
/// with a number of its own, writing all that the reply says before the next frame. Once a reply has brought the end up,
/// what comes is packets, which are skipped unread.
///
/// Closed comes with the cause of the reply that closed the end, also where its last words could not be written; or with
/// that for which the desk says that the end is gone; or with a fault, which is reported to the desk as one loss: Ended (a read
/// gave nothing), ReadFailed, WriteFailed (also a write that took nothing), NoMemory, GaveUp (the desk refused a frame for
/// another reason). Limit comes where the turns ran out, and nothing is reported then.
///
/// As many numbers are drawn as frames were handed on, and one more where the desk refused a frame.
///
/// It is meant for an end that took no frame before. Source: our own choice.
pub fn drive<S: Stream, D: Desk, W: Draws>(
    alloc: Global,
    stream: &mut S,
    desk: &mut D,
    draws: &mut W,
    end_: EndId,
    first: &[u8],
    limit: usize,
) -> Outcome
    ensures drives { Drives D.facts W.gives
        (record { end_ = end_; first = first.now; limit = limit; stream = S.meaning stream.old; desk = desk.old; draws = draws.old })
        (record { stream = S.meaning stream.new; desk = desk.new; draws = draws.new })
        result }
    ensures base { D.base desk.new ≡ D.base desk.old }
    ensures serves { D.serves desk.new ≡ D.serves desk.old }
{
    let Err(ending) = run(alloc, stream, desk, draws, end_, first, limit, false) else {
        unreachable!()
    };
    report_ending(desk, end_, ending)
}
