//! Steps, what C is told of them, and what it would be told before they are made.
ghost use Rattle.std.specs.{Prelude.◌≡◌, Prelude.◌≢◌, Prelude.Some, Prelude.IsTrue, Int.w16};
ghost use Rattle.dist_core.specs.Losses.{is_loss};
ghost use Rattle.dist_frames.specs.Stream.{first_body};
ghost use Rattle.dist_c_guest.specs.{Bodies.TakesBody, Bodies.is_short, Bodies.ForeseesBody, Bodies.ForeseesFront, Steps.Steps, Steps.Takes};

use crate::codes::{AWAITS, OK, TOO_LONG, step_code};
use crate::guest::Guest;
use crate::replies::{DnReply, reply_of};
use dist_core::Event;
use dist_frames::first_body;
use dist_peers::EndId;
use std::alloc::Global;

/// Whether a frame can have this body, by its length of 2 bytes.
pub fn is_short(body: &[u8]) -> bool
    ensures { result ≡ is_short body.now }
{
    body.len() <= 65535
}

/// Makes a step at a guest, and reports its reply.
pub fn step_guest(
    guest: &mut Guest,
    alloc: Global,
    event: &Event,
    fresh: u32,
    reply: &mut DnReply,
) -> u32
    ensures step { Steps event.now fresh result (Some guest.old) (Some guest.new) reply.old reply.new }
    ensures loss { IsTrue (is_loss event.now) → result ≢ 3 }
{
    match guest.step(alloc, event, fresh) {
        Ok(()) => {
            if let Some(last) = &guest.last {
                *reply = reply_of(last, 0);
            }
            OK
        }
        Err(error) => step_code(error),
    }
}

/// The step of a body, where a frame can have it.
pub fn take_body(
    guest: &mut Guest,
    alloc: Global,
    id: EndId,
    body: &[u8],
    challenge: u32,
    reply: &mut DnReply,
) -> u32
    ensures { TakesBody (is_short body.now) body.now id challenge result guest.old (Some guest.new) reply.old reply.new }
{
    if !is_short(body) {
        return TOO_LONG;
    }
    match guest.take(alloc, id, body, challenge) {
        Ok(()) => {
            if let Some(last) = &guest.last {
                *reply = reply_of(last, body.len());
            }
            OK
        }
        Err(error) => step_code(error),
    }
}

/// The step of the frame at the front of these bytes, or `AWAITS`, which keeps none of them, where it is not whole yet.
pub fn take_front(
    guest: &mut Guest,
    alloc: Global,
    id: EndId,
    bytes: &[u8],
    challenge: u32,
    reply: &mut DnReply,
) -> u32
    ensures { Takes (first_body w16 bytes.now) id challenge result guest.old (Some guest.new) reply.old reply.new }
{
    let Some(body) = first_body(bytes) else {
        return AWAITS;
    };
    match guest.take(alloc, id, body, challenge) {
        Ok(()) => {
            if let Some(last) = &guest.last {
                *reply = reply_of(last, 2 + body.len());
            }
            OK
        }
        Err(error) => step_code(error),
    }
}

/// What `take_front` would return.
pub fn foresee_front(
    guest: &mut Guest,
    alloc: Global,
    id: EndId,
    bytes: &[u8],
    challenge: u32,
    reply: &mut DnReply,
) -> u32
    ensures front { ForeseesFront (first_body w16 bytes.now) id challenge result guest.old reply.old reply.new }
    ensures same { guest.new ≡ guest.old }
{
    let Some(body) = first_body(bytes) else {
        return AWAITS;
    };
    match guest.foresee(alloc, id, body, challenge) {
        Ok(answer) => {
            *reply = reply_of(&answer, 2 + body.len());
            OK
        }
        Err(error) => step_code(error),
    }
}

/// What `take_body` would return.
pub fn foresee_body(
    guest: &mut Guest,
    alloc: Global,
    id: EndId,
    body: &[u8],
    challenge: u32,
    reply: &mut DnReply,
) -> u32
    ensures body { ForeseesBody (is_short body.now) body.now id challenge result guest.old reply.old reply.new }
    ensures same { guest.new ≡ guest.old }
{
    if !is_short(body) {
        return TOO_LONG;
    }
    match guest.foresee(alloc, id, body, challenge) {
        Ok(answer) => {
            *reply = reply_of(&answer, body.len());
            OK
        }
        Err(error) => step_code(error),
    }
}
