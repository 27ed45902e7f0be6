//! A conversation is judged, once: what it carried is read from it, and has the verdict of the table for live handshakes.

ghost use Rattle.std.specs.Prelude.{◌≡◌, IfOk, IfSome};
ghost use Rattle.dist_conversation.specs.Conversations.{first_end};
ghost use Rattle.dist_conversation.specs.Verdicts.{CarriesAtEnd, EndsAt, EndsUpon, IsDueAs, IsHandshakeOf, begins_with_name};
ghost use Rattle.dist_conversation.specs.Verdicts.{fault_of, how_ended, is_in_vain, is_whole};
ghost use Rattle.dist_conversation.specs.Verdicts.{is_overdue, is_quiet, is_settled, is_unanswered, last_said, missing_of, of_both, talk_of, verdict_on};
ghost use Rattle.dist_talk.specs.Standing.{standing};

use crate::carried::{Carried, Conclusion, acknowledged_at};
use crate::conversation::{Conversation, is_long};
use crate::flow::FlowEnd;
use crate::looks::Shown;
use crate::mapper::{MapperTalk, talk_in};
use crate::said::{SideSaid, said_by};
use dist_epmd_calls::LookupError;
use dist_messages::{Message, Side};
use dist_talk::{
    Handshake, HandshakeEnd, HowEnded, Missing, NextBody, SentContent, SentMessage, Standing,
    Terms, Unreached, next_body, other_side,
};
use std::alloc::{AllocError, Global};

// How long packets that are missing are awaited behind the acknowledgement, in nanoseconds: the capture may have them in another order.
// Our own choice.
const DISORDER: u64 = 1_000_000_000;

// The two bytes with which a record of TLS begins, as a number.
const TLS: u16 = 0x1603;

/// What is known of the other end of a conversation: whether a node listens there, and whether its host sent a segment.
#[derive(Clone, Copy)]
pub struct OtherEnd {
    pub is_node: bool,
    pub is_seen: bool,
}

// Whether the first of these is a name.
fn begins_with_name(said: &[SentMessage]) -> bool
    ensures { result ≡ begins_with_name said.now }
{
    match said.first() {
        Some(sent) => matches!(
            &sent.content,
            SentContent::Message(Message::NewName { .. } | Message::OldName { .. })
        ),
        None => false,
    }
}

// When the latest message of these was there, or this time if there is none.
fn latest_of(said: &[SentMessage], began: u64) -> u64
    ensures { result ≡ last_said began said.now }
{
    match said.last() {
        Some(sent) => sent.at,
        None => began,
    }
}

// What the capture lacks of a handshake.
fn missing_of(seen: &Conversation, handshake: &Handshake) -> Missing
    ensures { result ≡ missing_of seen.now handshake.now }
{
    Missing {
        beginning: handshake.len() > 0 && !begins_with_name(&handshake.dialler),
        dialler: seen.lacks_bytes(Side::Dialler),
        acceptor: seen.lacks_bytes(Side::Acceptor),
    }
}

// What it means that a side ended so.
fn how_ended(seen: &Conversation, side: Side, end: FlowEnd) -> HowEnded
    ensures { result ≡ how_ended seen.now side end }
{
    if seen.flow(other_side(side)).is_unread_by(end) {
        HowEnded::Unread
    } else if end.is_reset {
        HowEnded::Reset
    } else {
        HowEnded::Closed
    }
}

// Whether for too long nobody said anything in a handshake, until its first end or this time.
fn is_overdue(seen: &Conversation, handshake: &Handshake, now: u64) -> bool
    ensures { result ≡ is_overdue seen.now handshake.now now }
{
    let dialler = latest_of(&handshake.dialler, seen.began);
    let latest = dialler.max(latest_of(&handshake.acceptor, seen.began));
    let until = match seen.first_end() {
        Some((_, end)) => end.at,
        None => now,
    };
    is_long(latest, until)
}

// Whether a side that ended the connection so had received nothing for too long since it spoke last: what the other side sent again and
// again was lost on the way.
fn is_in_vain(seen: &Conversation, handshake: &Handshake, side: Side, end: FlowEnd) -> bool
    ensures { result ≡ is_in_vain seen.now handshake.now side end }
{
    let other = seen.flow(other_side(side));
    let latest = latest_of(handshake.messages_of(side), seen.began);
    other.again > 0 && other.is_unread_by(end) && is_long(latest, end.at)
}

// Whether the side whose turn it was said nothing in time. An accepting side that ended the connection was there, and so not silent.
fn is_quiet(seen: &Conversation, handshake: &Handshake, now: u64, side: Side) -> bool
    ensures { result ≡ is_quiet seen.now handshake.now now side (first_end seen.now) }
{
    match (side, seen.first_end()) {
        (Side::Acceptor, Some((Side::Acceptor, _))) => false,
        (Side::Dialler, Some((Side::Dialler, end))) => {
            is_overdue(seen, handshake, now) || is_in_vain(seen, handshake, side, end)
        }
        _ => is_overdue(seen, handshake, now),
    }
}

// How a handshake ended where this side's turn was, of which these bytes wait: they may begin no message; it may have been silent; or the first
// end counts.
fn ending_at(
    seen: &Conversation,
    handshake: &Handshake,
    side: Side,
    left: &[u8],
    now: u64,
) -> Option<HandshakeEnd>
    ensures { EndsAt seen.now handshake.now left.now now side result }
{
    if let NextBody::Front(front) = next_body(side, left) {
        let how = HowEnded::Foreign(front);
        return Some(HandshakeEnd { side, how });
    }
    if is_quiet(seen, handshake, now, side) {
        let how = HowEnded::Quiet(left.len());
        return Some(HandshakeEnd { side, how });
    }
    let (side, end) = seen.first_end()?;
    let how = how_ended(seen, side, end);
    Some(HandshakeEnd { side, how })
}

// The bytes of this side, of those of both.
fn left_of<'l>(side: Side, left: (&'l [u8], &'l [u8])) -> &'l [u8]
    ensures { result.now ≡ of_both left.entry.0.now left.entry.1.now side }
{
    match side {
        Side::Dialler => left.0,
        Side::Acceptor => left.1,
    }
}

// How a handshake ended where a message is due, and these bytes of both sides wait.
fn due_end(
    seen: &Conversation,
    handshake: &Handshake,
    terms: &Terms<'_>,
    left: (&[u8], &[u8]),
    now: u64,
) -> Option<HandshakeEnd>
    ensures { EndsUpon (standing terms.now handshake.now) seen.now handshake.now (of_both left.entry.0.now left.entry.1.now) now result }
{
    let Standing::Due(due) = handshake.standing(terms) else {
        return None;
    };
    let side = due.side();
    ending_at(seen, handshake, side, left_of(side, left), now)
}

// The handshake of a conversation as it stands at this time: what both sides said, what the capture lacks, and, where a message is due, how it
// ended.
fn read_handshake(
    alloc: Global,
    seen: &Conversation,
    terms: &Terms<'_>,
    now: u64,
) -> Result<Handshake, AllocError>
    ensures { IfOk result (IsHandshakeOf terms.now seen.now now) }
{
    let dialler = said_by(alloc, seen, Side::Dialler)?;
    let acceptor = said_by(alloc, seen, Side::Acceptor)?;
    let mut handshake = Handshake::new(alloc);
    handshake.dialler = dialler.messages;
    handshake.acceptor = acceptor.messages;
    handshake.missing = missing_of(seen, &handshake);
    let left = (dialler.left, acceptor.left);
    handshake.ending = due_end(seen, &handshake, terms, left, now);
    Ok(handshake)
}

// Whether the reply of a handshake is there, and no byte of it is missing.
fn is_whole(handshake: &Handshake) -> bool
    ensures { result ≡ is_whole handshake.now }
{
    let Missing {
        dialler,
        acceptor,
        ..
    } = handshake.missing;
    handshake.is_done(Side::Dialler) && !dialler && !acceptor
}

// Whether a handshake was made, and nothing that is missing may come yet, or be kept.
fn is_settled(seen: &Conversation, handshake: &Handshake) -> bool
    ensures { result ≡ is_settled seen.now handshake.now }
{
    match acknowledged_at(&handshake.acceptor) {
        Some(at) => {
            is_whole(handshake)
                || seen.latest.saturating_sub(at) >= DISORDER
                || seen.flow(Side::Dialler).is_full()
                || seen.flow(Side::Acceptor).is_full()
        }
        None => false,
    }
}

// Why a port mapper gave no answer, at this time.
fn answer_fault(seen: &Conversation, now: u64) -> Option<LookupError>
    ensures { result ≡ fault_of seen.now now }
{
    if seen.lacks_bytes(Side::Acceptor) || seen.lacks_bytes(Side::Dialler) {
        return None;
    }
    match seen.first_end() {
        Some((Side::Acceptor, end)) if end.is_reset => Some(LookupError::ReadFailed),
        Some((Side::Acceptor, _)) => Some(LookupError::Ended),
        Some((Side::Dialler, _)) => Some(LookupError::Limit),
        None if is_long(seen.began, now) => Some(LookupError::Limit),
        None => None,
    }
}

// Whether TLS was dialled where a plain node listens: that took the connection, said nothing, and no byte of it is missing.
fn is_unanswered(seen: &Conversation, now: u64) -> bool
    ensures { result ≡ is_unanswered seen.now now }
{
    let is_left = seen.first_end().is_some() || is_long(seen.began, now);
    is_left && !seen.flow(Side::Acceptor).has_spoken && !seen.lacks_bytes(Side::Acceptor)
}

// What is said to a port mapper.
fn read_talk(alloc: Global, seen: &Conversation) -> Result<Option<MapperTalk>, AllocError>
    ensures { IfOk result (λ talk. talk ≡ talk_of seen.now) }
{
    talk_in(
        alloc,
        seen.flow(Side::Dialler).bytes(),
        seen.flow(Side::Acceptor).bytes(),
    )
}

// What an open conversation carries, if it is to be judged now: a handshake that was made, the answer of a port mapper, or what is no request
// to one.
fn carried_now(
    alloc: Global,
    seen: &Conversation,
    terms: &Terms<'_>,
) -> Result<Option<Carried>, AllocError>
    ensures { IfOk result (λ due. IfSome due (IsDueAs seen.now.shown terms.now seen.now)) }
{
    match seen.shown {
        Shown::Handshake => {
            let handshake = read_handshake(alloc, seen, terms, seen.latest)?;
            Ok(is_settled(seen, &handshake).then_some(Carried::Handshake(handshake)))
        }
        Shown::Mapper => match read_talk(alloc, seen)? {
            Some(talk) if talk.answer.is_some() => Ok(Some(Carried::Talk(talk))),
            Some(_) => Ok(None),
            None => Ok(Some(Carried::Nothing)),
        },
        Shown::Nothing | Shown::Tls | Shown::Other => Ok(None),
    }
}

// What a conversation carried that was not judged before it ended, by this time.
fn carried_at_end(
    alloc: Global,
    seen: &Conversation,
    other: OtherEnd,
    terms: &Terms<'_>,
    now: u64,
) -> Result<Carried, AllocError>
    ensures { IfOk result (CarriesAtEnd terms.now other seen.now now) }
{
    if (other.is_node || seen.is_at_mapper && other.is_seen)
        && let Some(unreached) = seen.connect_fault(now)
    {
        return Ok(Carried::Unreached(unreached));
    }
    match seen.shown {
        Shown::Handshake => Ok(Carried::Handshake(read_handshake(alloc, seen, terms, now)?)),
        Shown::Nothing if other.is_node && seen.lacks_bytes(Side::Dialler) => {
            Ok(Carried::Handshake(read_handshake(alloc, seen, terms, now)?))
        }
        Shown::Mapper => {
            let Some(mut talk) = read_talk(alloc, seen)? else {
                return Ok(Carried::Nothing);
            };
            if talk.is_awaited() {
                talk.fault = answer_fault(seen, now);
            }
            Ok(Carried::Talk(talk))
        }
        Shown::Tls if other.is_node && is_unanswered(seen, now) => {
            let mut handshake = Handshake::new(alloc);
            handshake.end(Side::Dialler, HowEnded::Foreign(TLS));
            Ok(Carried::Handshake(handshake))
        }
        Shown::Tls => Ok(Carried::Tls),
        Shown::Nothing | Shown::Other => Ok(Carried::Nothing),
    }
}

// This is carried, and judged by these terms.
fn conclude(seen: &Conversation, carried: Carried, terms: &Terms<'_>) -> Conclusion
    ensures { (result.carried ≡ carried) × (result.verdict ≡ verdict_on terms.now seen.now.is_at_mapper carried) }
{
    let verdict = carried.verdict(terms, seen.is_at_mapper);
    Conclusion { carried, verdict }
}

/// Judges an open conversation, if it is due.
pub fn judge_now(
    alloc: Global,
    seen: &Conversation,
    terms: &Terms<'_>,
) -> Result<Option<Conclusion>, AllocError>
    ensures due { IfOk result (λ due. IfSome due (λ j. IsDueAs seen.now.shown terms.now seen.now j.carried)) }
    ensures verdict { IfOk result (λ due. IfSome due (λ j. j.verdict ≡ verdict_on terms.now seen.now.is_at_mapper j.carried)) }
{
    match carried_now(alloc, seen, terms)? {
        Some(carried) => Ok(Some(conclude(seen, carried, terms))),
        None => Ok(None),
    }
}

/// Judges a conversation at its end, by this time.
pub fn judge_at_end(
    alloc: Global,
    seen: &Conversation,
    other: OtherEnd,
    terms: &Terms<'_>,
    now: u64,
) -> Result<Conclusion, AllocError>
    ensures carried { IfOk result (λ j. CarriesAtEnd terms.now other seen.now now j.carried) }
    ensures verdict { IfOk result (λ j. j.verdict ≡ verdict_on terms.now seen.now.is_at_mapper j.carried) }
{
    let carried = carried_at_end(alloc, seen, other, terms, now)?;
    Ok(conclude(seen, carried, terms))
}
