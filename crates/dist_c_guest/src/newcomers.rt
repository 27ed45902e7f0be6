//! A connection that came, and a dial: the oldest end that is not up makes room for them.
ghost use Rattle.std.specs.Prelude.{◌≡◌, Some};
ghost use Rattle.dist_c_guest.specs.{Newcomers.MakesRoom, Newcomers.first_to_go, Newcomers.room_for, Steps.opening_of, Newcomers.ComesAt, Newcomers.with_room};

use crate::codes::why_number;
use crate::guest::Guest;
use crate::replies::DnReply;
use crate::stepping::step_guest;
use dist_core::{Event, Node, Opening, StepError, Why};
use dist_peers::EndId;
use std::alloc::Global;

pub fn opening_of(number: u32) -> Opening
    ensures { result ≡ opening_of number }
{
    if number == 0 {
        Opening::Old
    } else {
        Opening::New
    }
}

// The end that is given up first.
fn first_to_go(node: &mut Node) -> Option<EndId>
    ensures first { result ≡ first_to_go node.old.ends }
    ensures same { node.new ≡ node.old }
{
    match node.oldest_unnamed() {
        Some(id) => Some(id),
        None => node.oldest_pending(),
    }
}

// The end that has to make room for this event, where the node refuses it as full and an end is pending.
fn room_for(node: &mut Node, alloc: Global, event: &Event) -> Option<EndId>
    ensures room { result ≡ room_for event.now node.old }
    ensures same { node.new ≡ node.old }
{
    match node.answer(alloc, event, 0) {
        Err(StepError::Full) => first_to_go(node),
        _ => None,
    }
}

impl Guest {
    /// Makes room for a newcomer, an incoming connection or a dial: where the node would refuse this event as `Full`, and some
    /// end is open and not up, one is given up, and its number is returned: the oldest of those on which no name came, and where
    /// there is none the oldest of all that are not up. Its connection is to be closed. Else nothing changes.
    ///
    /// Thus whoever comes anew finds room while somebody holds a connection open and shows no cookie, and a handshake that has
    /// begun is not given up while somebody says nothing. An end that is up is never given up. It takes memory for the answer to
    /// the event alone, and where it has none it changes nothing.
    pub fn evict(&mut self, alloc: Global, event: &Event) -> Option<EndId>
        ensures end { result ≡ room_for event.now self.old.node }
        ensures room { MakesRoom result self.old self.new }
    {
        let id = room_for(&mut self.node, alloc, event)?;
        let lost = Event::Lost {
            end_: id,
            why: Why::GaveUp,
        };
        let _ = self.step(alloc, &lost, 0);
        Some(id)
    }
}

// Reports which end made room, also where the newcomer was refused.
pub fn report_room(lost: Option<EndId>, reply: &mut DnReply)
    ensures { reply.new ≡ with_room lost reply.old }
{
    match lost {
        Some(id) => {
            reply.closed = why_number(Why::GaveUp);
            reply.closed_id = id.0;
        }
        None => {
            reply.closed = 0;
            reply.closed_id = 0;
        }
    }
}

// The step of a newcomer at a guest.
pub fn step_newcomer(guest: &mut Guest, alloc: Global, event: &Event, reply: &mut DnReply) -> u32
    ensures { ComesAt (room_for event.now guest.old.node) event.now result guest.old (Some guest.new) reply.old reply.new }
{
    let lost = guest.evict(alloc, event);
    let code = step_guest(guest, alloc, event, 0, reply);
    report_room(lost, reply);
    code
}
