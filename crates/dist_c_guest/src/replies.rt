//! A reply, as C sees it.
ghost use Rattle.std.specs.{Prelude.◌≡◌, Prelude.option_and_then, Option.option_map_or};
ghost use Rattle.dist_c_guest.specs.{Codes.why_number, Replies.reply_of, Replies.creation_number, Replies.is_known};

use crate::codes::why_number;
use dist_core::{Reply, UpRecord, Why};
use dist_names::Creation;
use dist_peers::EndId;
use std::mem::size_of;

const _: () = prove!(size_of::<DnReply>() == 48);

/// What a step did.
#[repr(C)]
#[derive(Drop)]
pub struct DnReply {
    /// How many bytes are to be written on the event's end.
    pub say: usize,
    /// How many of the bytes that were given belong to the frame that was taken.
    pub taken: usize,
    /// Of an end that came up, the flags that both nodes announced.
    pub common: u64,
    /// The event's end, or the one that was given out.
    pub id: u32,
    /// Why an end was closed, and 0 where none was.
    pub closed: u32,
    /// Which end was closed, where one was.
    pub closed_id: u32,
    /// 1 where the event's end came up.
    pub up: u32,
    /// Of an end that came up, the other node's creation, and 0 where it is unknown.
    pub creation: u32,
    /// 1 where that is known, as that of a peer that knows version 6 is.
    pub has_creation: u32,
}

fn closed_parts(closed: &Option<(EndId, Why)>) -> (u32, u32)
    ensures { result ≡ (option_map_or (λ x. why_number x.1) closed.now 0, option_map_or (λ x. x.0.0) closed.now 0) }
{
    match closed {
        None => (0, 0),
        Some((id, why)) => (why_number(*why), id.0),
    }
}

/// The number of a creation, 0 where it is unknown, and whether it is known.
pub fn creation_parts(creation: Option<Creation>) -> (u32, u32)
    ensures { result ≡ (creation_number creation, is_known creation) }
{
    match creation {
        None => (0, 0),
        Some(known) => (known.0, 1),
    }
}

fn up_parts(up: &Option<UpRecord>) -> (u32, u64, Option<Creation>)
    ensures { result ≡ (option_map_or (λ u. 1) up.now 0, option_map_or (λ u. u.common.0) up.now 0, option_and_then (λ u. u.creation) up.now) }
{
    match up {
        None => (0, 0, None),
        Some(kept) => (1, kept.common.0, kept.creation),
    }
}

/// A reply to bytes of which this many were taken.
pub fn reply_of(reply: &Reply, taken: usize) -> DnReply
    ensures { result ≡ reply_of reply.now taken }
{
    let (closed, closed_id) = closed_parts(&reply.closed);
    let (up, common, creation) = up_parts(&reply.up);
    let (creation, has_creation) = creation_parts(creation);
    DnReply {
        say: reply.say.len(),
        taken,
        common,
        id: reply.end_.0,
        closed,
        closed_id,
        up,
        creation,
        has_creation,
    }
}
