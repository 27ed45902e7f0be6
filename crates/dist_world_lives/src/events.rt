//! An event that an incarnation gets, among all incarnations and connections.
ghost use Rattle.std.specs.Prelude.{◌≡◌, IfOk, OnErr, MatchOption};
ghost use Rattle.dist_world_lives.specs.Notifying.{event_wire, HasNotified, Declines, is_out_of_memory};

use crate::Connections;
use crate::life::Life;
use crate::stepping::{LifeStep, Occasion};
use dist_core::{Event, StepError};
use dist_core_laws::a_reply_is_of_its_end;
use dist_messages::Side;
use std::alloc::AllocError;

// Which side of which connection the end of an event is.
fn event_wire(life: &Life, event: &Event) -> Option<(Side, usize)>
    ensures { result ≡ event_wire life.now.rows event.now }
{
    match event {
        Event::Dial {
            peer: _,
            opening: _,
        } => None,
        Event::Incoming { link } => Some((Side::Acceptor, *link as usize)),
        Event::Opened { end_, link: _ } => life.wire(*end_),
        Event::Frame { end_, body: _ } => life.wire(*end_),
        Event::Lost { end_, why: _ } => life.wire(*end_),
        Event::Tick { end_ } => life.wire(*end_),
    }
}

// Out of memory, and no refusal of the event.
fn is_out_of_memory(refusal: StepError) -> bool
    ensures { result ≡ is_out_of_memory refusal }
{
    matches!(refusal, StepError::NoMemory)
}

/// An incarnation gets an event. `None` where it does not run or refuses the event, which changes nothing.
pub fn notify(
    lives: &mut Vec<Life>,
    conns: &mut Connections,
    place: usize,
    occasion: &Occasion<'_>,
) -> Result<Option<(usize, LifeStep)>, AllocError>
    ensures ok { IfOk result (λ made. MatchOption made
        (Declines lives.old.items place occasion.now.event.now occasion.now.fresh × (lives.new.items ≡ lives.old.items) × (conns.new ≡ conns.old))
        (λ x. HasNotified x.0 x.1 place occasion.now.clock occasion.now.event.now occasion.now.fresh lives.old.items lives.new.items conns.old conns.new)) }
    ensures err { OnErr result ((lives.new.items ≡ lives.old.items) × (conns.new ≡ conns.old)) }
{
    a_reply_is_of_its_end();
    if place >= lives.len() {
        return Ok(None);
    }
    let life = &mut lives[place];
    if !life.runs() {
        return Ok(None);
    }
    let wire = event_wire(life, occasion.event);
    match life.step(conns, wire, occasion) {
        Ok(made) => Ok(Some((life.who(), made))),
        Err(refusal) => {
            if is_out_of_memory(refusal) {
                return Err(AllocError);
            }
            Ok(None)
        }
    }
}
