//! What both sides of a conversation said in a handshake, read from the bytes with which each began.

ghost use Rattle.std.specs.Prelude.{◌≡◌, ◌≤◌, ◌+◌, IfOk, IfSome, length};
ghost use Rattle.std.specs.Option.{option_copied};
ghost use Rattle.dist_conversation.specs.Pieces.{has_bytes, place_in, time_in};
ghost use Rattle.dist_conversation.specs.Said.{body_in, ends_part, said_by, said_from, sent_by};

use crate::conversation::Conversation;
use crate::pieces::Arrival;
use dist_messages::Side;
use dist_talk::{NextBody, SentContent, SentMessage, content_of, next_body};
use std::alloc::{AllocError, Global};

// The most messages that are read of a side: a handshake has at most four. Our own choice.
const MOST_MESSAGES: usize = 8;

/// What a side said in a handshake.
#[derive(Drop)]
pub struct SideSaid<'c> {
    /// Its messages, in order.
    pub messages: Vec<SentMessage>,
    /// The bytes behind them; none once it said the last message of its part.
    pub left: &'c [u8],
}

// Whether this is the last message of a side's part: a reply, an acknowledgement. Packets follow.
fn ends_part(side: Side, content: &SentContent) -> bool
    ensures { result ≡ ends_part side content.now }
{
    match side {
        Side::Dialler => content.reply().is_some(),
        Side::Acceptor => content.ack().is_some(),
    }
}

// Whether so many bytes of a side are there with a piece.
fn has_bytes(piece: &Arrival, side: Side, count: usize) -> bool
    ensures { result ≡ has_bytes side count piece.now }
{
    match (piece.side, side) {
        (Side::Dialler, Side::Dialler) | (Side::Acceptor, Side::Acceptor) => piece.until >= count,
        _ => false,
    }
}

// When so many bytes of a side were there.
fn time_in(pieces: &[Arrival], side: Side, count: usize) -> u64
    ensures { result ≡ time_in side count pieces.now }
{
    match pieces {
        [] => 0,
        [piece, ..] if has_bytes(piece, side, count) => piece.at,
        [_, rest @ ..] => time_in(rest, side, count),
    }
}

// With which piece they were there.
fn place_in(pieces: &[Arrival], side: Side, count: usize) -> usize
    ensures is { result ≡ place_in side count pieces.now }
    ensures within { result ≤ length pieces.now }
{
    match pieces {
        [] => 0,
        [piece, ..] if has_bytes(piece, side, count) => 0,
        [_, rest @ ..] => place_in(rest, side, count) + 1,
    }
}

// The whole body that stands first in these bytes of a side, if one does.
fn whole_body(side: Side, bytes: &[u8]) -> Option<&[u8]>
    ensures is { option_copied result ≡ body_in side bytes.now }
    ensures size { IfSome result (λ body. length body.now + 2 ≤ length bytes.now) }
{
    match next_body(side, bytes) {
        NextBody::Whole(body) => Some(body),
        NextBody::Front(_) | NextBody::Open => None,
    }
}

// The message of a body, which is whole with so many bytes of its side.
fn message_of(
    alloc: Global,
    side: Side,
    pieces: &[Arrival],
    body: &[u8],
    count: usize,
) -> Result<SentMessage, AllocError>
    ensures { IfOk result (λ sent. sent ≡ sent_by side pieces.now body.now count) }
{
    let content = content_of(alloc, side, body)?;
    Ok(SentMessage {
        at: time_in(pieces, side, count),
        number: place_in(pieces, side, count),
        content,
    })
}

// What a side said that began with these bytes, which came in these pieces.
fn read_all<'c>(
    alloc: Global,
    side: Side,
    pieces: &[Arrival],
    bytes: &'c [u8],
) -> Result<SideSaid<'c>, AllocError>
    ensures messages { IfOk result (λ said. said.messages.items ≡ (said_from 8 side pieces.now bytes.now 0).messages) }
    ensures left { IfOk result (λ said. said.left.now ≡ (said_from 8 side pieces.now bytes.now 0).left) }
{
    let (mut messages, mut count) = (Vec::new(alloc), 0);
    'messages: while messages.len() < MOST_MESSAGES {
        let (_, left) = bytes.split_at(count);
        let Some(body) = whole_body(side, left) else {
            return Ok(SideSaid { messages, left });
        };
        count += body.len() + 2;
        let sent = message_of(alloc, side, pieces, body, count)?;
        let is_last = ends_part(side, &sent.content);
        messages.push(sent)?;
        if is_last {
            return Ok(SideSaid {
                messages,
                left: b"",
            });
        }
    }
    Ok(SideSaid {
        messages,
        left: b"",
    })
}

/// What a side said: its messages as far as they are whole, each at the time when its last byte was there.
pub fn said_by<'c>(
    alloc: Global,
    conversation: &'c Conversation,
    side: Side,
) -> Result<SideSaid<'c>, AllocError>
    ensures messages { IfOk result (λ said. said.messages.items ≡ (said_by side conversation.now).messages) }
    ensures left { IfOk result (λ said. said.left.now ≡ (said_by side conversation.now).left) }
{
    let bytes = conversation.flow(side).bytes();
    read_all(alloc, side, conversation.pieces.as_slice(), bytes)
}
