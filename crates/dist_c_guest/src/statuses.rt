//! The status that a body spells, and its number.
ghost use Rattle.std.specs.Prelude.{◌≡◌, ◌∷◌, ℕ, List, option_and_then};
ghost use Rattle.dist_messages.specs.Reading.{read};
ghost use Rattle.dist_c_guest.specs.Statuses.{status_in, status_number, status_of, status_received, status_sent};

use crate::guest::Guest;
use dist_core::Event;
use dist_frames::first_body;
use dist_messages::{Message, Side, Status, decode};
use std::alloc::Global;

// The status of this side that a body spells whose first byte is that of a status. A status takes no memory.
#[tactic(auto, using(crate::proofs::Spelled::no_name))]
fn status_by(alloc: Global, side: Side, body: &[u8]) -> Option<Status>
    requires { (text : List ℕ) × (body.now ≡ 115 ∷ text) }
    ensures { result ≡ status_in (read side body.now) }
{
    match decode(alloc, side, body) {
        Ok(Message::Status(status)) => Some(status),
        _ => None,
    }
}

/// The status that a body spells, sent by either side.
pub fn status_of(alloc: Global, body: &[u8]) -> Option<Status>
    ensures { result ≡ status_of body.now }
{
    let [tag, ..] = body else {
        return None;
    };
    if *tag != b's' {
        return None;
    }
    match status_by(alloc, Side::Acceptor, body) {
        Some(status) => Some(status),
        None => status_by(alloc, Side::Dialler, body),
    }
}

/// The status that an event brings.
pub fn status_received(alloc: Global, event: &Event) -> Option<Status>
    ensures { result ≡ status_received event.now }
{
    match event {
        Event::Frame { end_: _, body } => status_of(alloc, body.as_slice()),
        _ => None,
    }
}

/// The number by which C knows a status, and 0 where there is none.
pub fn status_number(status: Option<Status>) -> u32
    ensures { result ≡ status_number status }
{
    match status {
        None => 0,
        Some(Status::Ok) => 1,
        Some(Status::OkSimultaneous) => 2,
        Some(Status::Nok) => 3,
        Some(Status::NotAllowed) => 4,
        Some(Status::Alive) => 5,
        Some(Status::True) => 6,
        Some(Status::False) => 7,
    }
}

/// The status that the newest step sent.
pub fn newest_status(guest: &Guest, alloc: Global) -> Option<Status>
    ensures { result ≡ option_and_then status_sent guest.now.last }
{
    match &guest.last {
        Some(reply) => status_of(alloc, first_body(reply.say.as_slice())?),
        None => None,
    }
}
