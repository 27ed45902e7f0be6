//! One side of a handshake, spoken over a stream.

ghost use Rattle.std.specs.Prelude.{◌≡◌, ◌⊎◌, IfOk, IsFalse, IsTrue, None, [], is_none};
ghost use Rattle.dist_messages.specs.Spelling.{Fits};
ghost use Rattle.dist_talk.specs.Bodies.{tags_of};
ghost use Rattle.dist_talk.specs.Speaking.{HearsNext, IsSpelled, IsWhole, LacksRoom, Moves, SaysMessage, Spoke, TakesCame};
ghost use Rattle.dist_talk.specs.Speaking.{how_by, how_cut, is_reply, other_side};
ghost use Rattle.dist_talk.specs.{Standing.standing, Words.side_of};
ghost use Rattle.dist_talk.specs.declared.bodies.Came.TheVariants as came;
ghost use Rattle.dist_talk.specs.declared.handshake.SentContent.TheVariants as content;
ghost use Rattle.dist_talk.specs.declared.standing.Standing.TheVariants.{Due};

use crate::bodies::{Came, read_frame_of, tags_of};
use crate::content::content_of;
use crate::handshake::{Handshake, HowEnded, SentContent};
use crate::own_side::OwnSide;
use crate::standing::Standing;
use crate::verdict::AwaitedMessage;
use dist_frames::write_short;
use dist_messages::{Message, Side, encode};
use dist_names::ByteString;
use dist_stream::{Limited, Stream, TurnError};
use std::alloc::{AllocError, Global};

/// The most messages of a handshake: name, status, answer, challenge, complement, reply, acknowledgement.
const MOST_MESSAGES: usize = 7;

/// The other side.
pub fn other_side(side: Side) -> Side
    ensures { result ≡ other_side side }
{
    match side {
        Side::Dialler => Side::Acceptor,
        Side::Acceptor => Side::Dialler,
    }
}

// How a side ended the handshake if the stream gave or took no more, after this many bytes of a message.
fn how_by(fault: TurnError, count: usize) -> HowEnded
    ensures { result ≡ how_by fault count }
{
    match fault {
        TurnError::Limit => HowEnded::Quiet(count),
        TurnError::Ended => HowEnded::Closed,
        TurnError::ReadFailed | TurnError::WriteFailed => HowEnded::Reset,
    }
}

// Whether a message is a reply.
fn is_reply(message: &Message) -> bool
    ensures { result ≡ is_reply message.now }
{
    matches!(message, Message::Reply { .. })
}

// How the other side ended the handshake if the stream took no more of an own message. A connection that takes no reply was ended before
// the other side had it.
fn how_cut(is_reply: bool, fault: TurnError) -> HowEnded
    ensures { result ≡ how_cut is_reply fault }
{
    match fault {
        TurnError::WriteFailed if is_reply => HowEnded::Unread,
        _ => how_by(fault, 0),
    }
}

// What a message of this side says, and its frame.
fn spell(alloc: Global, side: Side, message: Message) -> Result<(SentContent, Vec<u8>), AllocError>
    // The fields of a message that is due are numbers of its widths.
    requires { Fits message }
    ensures { IfOk result (λ sent. (sent.0 ≡ content.Message message) × IsSpelled side sent.0 sent.1.items) }
{
    let Ok(body) = encode(alloc, side, &message) else {
        return Err(AllocError);
    };
    match write_short(alloc, &body) {
        Ok(frame) => Ok((SentContent::Message(message), frame)),
        Err(_) => Err(AllocError),
    }
}

// Says a message on the own side: what was cut off counts as said. Memory that runs out before ends the handshake.
fn say<S: Stream>(
    alloc: Global,
    limited: &mut Limited<'_, S>,
    talk: &mut Handshake,
    side: Side,
    message: Message,
)
    // `take_turn` calls it only of a handshake that nothing ended.
    requires open { talk.old.ending ≡ None }
    requires fits { Fits message }
    ensures says { LacksRoom (other_side side) talk.old talk.new
        (S.meaning limited.old.stream.now) (S.meaning limited.new.stream.now) limited.old.left limited.new.left
        ⊎ SaysMessage side message talk.old talk.new
        (S.meaning limited.old.stream.now) (S.meaning limited.new.stream.now) limited.old.left limited.new.left }
    ensures loan { limited.new.stream.ghost_name ≡ limited.old.stream.ghost_name }
{
    let (other, is_reply) = (other_side(side), is_reply(&message));
    let Ok((content, frame)) = spell(alloc, side, message) else {
        return talk.end(other, HowEnded::NoMemory);
    };
    let Ok(()) = talk.take(side, content, 0) else {
        return talk.end(other, HowEnded::NoMemory);
    };
    match limited.write_all(&frame) {
        Ok(()) => {}
        Err(fault) => talk.end(other, how_cut(is_reply, fault)),
    }
}

// Takes a body of a side. Memory that runs out ends the handshake.
fn take_body(alloc: Global, talk: &mut Handshake, side: Side, body: &ByteString)
    // `hear` is called only of a handshake that nothing ended.
    requires { talk.old.ending ≡ None }
    ensures { TakesCame side (came.Body body.now) talk.old talk.new }
{
    let Ok(content) = content_of(alloc, side, body.as_slice()) else {
        return talk.end(side, HowEnded::NoMemory);
    };
    if talk.take(side, content, 0).is_err() {
        talk.end(side, HowEnded::NoMemory);
    }
}

// Takes what a side says next, or how it ended the handshake.
fn hear<S: Stream>(alloc: Global, limited: &mut Limited<'_, S>, talk: &mut Handshake, side: Side)
    // `take_turn` calls it only of a handshake that nothing ended.
    requires open { talk.old.ending ≡ None }
    ensures hears { HearsNext side talk.old talk.new
        (S.meaning limited.old.stream.now) (S.meaning limited.new.stream.now) limited.old.left limited.new.left }
    ensures loan { limited.new.stream.ghost_name ≡ limited.old.stream.ghost_name }
{
    match read_frame_of(alloc, limited, tags_of(side)) {
        Came::Body(body) => take_body(alloc, talk, side, &body),
        Came::Front(front) => talk.end(side, HowEnded::Foreign(front)),
        Came::Stopped(fault, count) => talk.end(side, how_by(fault, count)),
        Came::NoMemory => talk.end(side, HowEnded::NoMemory),
    }
}

// Whether it is this side's turn.
fn is_turn_of(side: Side, due: AwaitedMessage) -> bool
    ensures own { IsTrue result → side_of due ≡ side }
    ensures other { IsFalse result → side_of due ≡ other_side side }
{
    match (side, due.side()) {
        (Side::Dialler, Side::Dialler) | (Side::Acceptor, Side::Acceptor) => true,
        (Side::Dialler, Side::Acceptor) | (Side::Acceptor, Side::Dialler) => false,
    }
}

// Says the message that is due of the own side, or ends the handshake if there is none.
fn say_due<S: Stream>(
    alloc: Global,
    limited: &mut Limited<'_, S>,
    talk: &mut Handshake,
    own: &OwnSide<'_>,
    due: AwaitedMessage,
)
    // `take_turn` calls it only of a handshake that nothing ended, on the own turn.
    requires open { talk.old.ending ≡ None }
    requires stood { standing own.now.terms talk.old ≡ Due due }
    requires turn { side_of due ≡ own.now.side }
    ensures moves { Moves (is_none talk.new.ending) own.now talk.old talk.new
        (S.meaning limited.old.stream.now) (S.meaning limited.new.stream.now) limited.old.left limited.new.left }
    ensures loan { limited.new.stream.ghost_name ≡ limited.old.stream.ghost_name }
{
    let Ok(message) = own.message_due(alloc, talk, due) else {
        return talk.end(other_side(own.side), HowEnded::NoMemory);
    };
    match message {
        Some(message) => say(alloc, limited, talk, own.side, message),
        None => talk.end(own.side, HowEnded::Closed),
    }
}

// Says or takes the message that is due. Returns whether the handshake goes on.
fn take_turn<S: Stream>(
    alloc: Global,
    limited: &mut Limited<'_, S>,
    talk: &mut Handshake,
    own: &OwnSide<'_>,
) -> bool
    // `speak` calls it only of a handshake that nothing ended.
    requires open { talk.old.ending ≡ None }
    ensures moves { Moves result own.now talk.old talk.new
        (S.meaning limited.old.stream.now) (S.meaning limited.new.stream.now) limited.old.left limited.new.left }
    ensures loan { limited.new.stream.ghost_name ≡ limited.old.stream.ghost_name }
{
    let Standing::Due(due) = talk.standing(&own.terms) else {
        return false;
    };
    if is_turn_of(own.side, due) {
        say_due(alloc, limited, talk, own, due);
        return talk.ending.is_none();
    }
    hear(alloc, limited, talk, other_side(own.side));
    talk.ending.is_none()
}

fn take_turns<S: Stream>(
    alloc: Global,
    limited: &mut Limited<'_, S>,
    talk: &mut Handshake,
    own: &OwnSide<'_>,
)
    // `speak` begins with a handshake in which nothing was said.
    requires open { talk.old.ending ≡ None }
    requires dialler { talk.old.dialler.items ≡ [] }
    requires acceptor { talk.old.acceptor.items ≡ [] }
    requires whole { IsWhole talk.old }
    ensures spoke { Spoke own.now talk.new (S.meaning limited.old.stream.now) (S.meaning limited.new.stream.now) limited.old.left }
    ensures loan { limited.new.stream.ghost_name ≡ limited.old.stream.ghost_name }
{
    let mut count = 0;
    while count < MOST_MESSAGES {
        if !take_turn(alloc, limited, talk, own) {
            return;
        }
        count += 1;
    }
}

/// Speaks the own side of a handshake over a stream, in at most `limit` reads and writes, and returns what both sides said.
///
/// The dialling side opens by the newer name, answers `alive` by `false`, so that the node keeps the connection that it has, and ends
/// the handshake at the challenge if no cookie is known, or if one of the two names is long and the other short, since then neither node
/// dials the other. The accepting side ends it at a reply that it cannot compare, or that is not that of its cookie. The caller closes the
/// connection: an end that comes up is not kept.
pub fn speak<S: Stream>(alloc: Global, stream: &mut S, own: &OwnSide<'_>, limit: usize) -> Handshake
    ensures { Spoke own.now result (S.meaning stream.old) (S.meaning stream.new) limit }
{
    let mut limited = Limited {
        stream,
        left: limit,
    };
    let mut talk = Handshake::new(alloc);
    take_turns(alloc, &mut limited, &mut talk, own);
    talk
}
