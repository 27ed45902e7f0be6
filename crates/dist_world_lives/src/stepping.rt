//! An event that an incarnation gets.
ghost use Rattle.std.specs.Prelude.{◌≡◌, ◌++◌, IfOk, IfErr, OnOk, OnErr, Ok};
ghost use Rattle.dist_core.specs.{Answers.Refuses, Step.step};
ghost use Rattle.dist_world_model.specs.{Lists.add_some, Lists.at_each, Lists.at_place, Rows.mark, Rows.given_by, Rows.conn_behind};
ghost use Rattle.dist_world_lives.specs.Stepping.{life_step_of, conns_with, undelivered_on, HasMadeStep, HasSent};
ghost use Rattle.dist_world_lives.specs.Stepping.{own_row, rows_shut, rows_doomed, doomed_end};

use crate::Connections;
use crate::row::EndRow;
use dist_core::{Event, Keeper, Node, Note, Reply, StepError, Why};
use dist_messages::Side;
use dist_names::ByteString;
use dist_peers::EndId;
use std::alloc::{AllocError, Global};

/// What an incarnation gets: an event with its draw, the number of the happening, and where memory comes from.
#[derive(Clone, Copy)]
pub struct Occasion<'a> {
    pub alloc: Global,
    /// The number of the happening, counted from 0 among those that applied.
    pub clock: u64,
    pub event: &'a Event,
    /// The draw for a challenge.
    pub fresh: u32,
}

/// What is left of a reply once its words are on their way and the rows have what it writes.
#[derive(Clone, Copy)]
pub struct LifeStep {
    /// The event's end, or the one that was given out.
    pub end_: EndId,
    /// The end that the step closed, and why.
    pub closed: Option<(EndId, Why)>,
}

/// How many connections of a world there may be.
pub const MOST_CONNECTIONS: usize = 281_474_976_710_656;

/// The connection behind a link. `None` where the link is none of the world.
pub fn conn_behind(link: u64) -> Option<usize>
    ensures { result ≡ conn_behind link }
{
    if link < MOST_CONNECTIONS as u64 {
        Some(link as usize)
    } else {
        None
    }
}

// The row of the end that an event gives out.
fn new_row(alloc: Global, clock: u64, event: &Event) -> Result<Option<EndRow>, AllocError>
    ensures { IfOk result (λ row. row ≡ given_by clock event.now) }
{
    match event {
        Event::Dial { peer, opening: _ } => Ok(Some(EndRow::new(
            Side::Dialler,
            Some(peer.try_clone(alloc)?),
            None,
            clock,
        ))),
        Event::Incoming { link } => Ok(Some(EndRow::new(
            Side::Acceptor,
            None,
            conn_behind(*link),
            clock,
        ))),
        _ => Ok(None),
    }
}

// The row of the end that an event gives out stands behind all others. An `Err` changes nothing.
fn push_row(
    rows: &mut Vec<EndRow>,
    alloc: Global,
    clock: u64,
    event: &Event,
) -> Result<(), AllocError>
    ensures ok { OnOk result (rows.new.items ≡ add_some rows.old.items (given_by clock event.now)) }
    ensures err { OnErr result (rows.new.items ≡ rows.old.items) }
{
    if let Some(row) = new_row(alloc, clock, event)? {
        rows.push(row)?;
    }
    Ok(())
}

/// Keeps the reply to an event, and what is undelivered once it is sent behind these bytes.
#[derive(Drop)]
struct Joining<'a> {
    undelivered: &'a [u8],
}

/// A reply, and what is undelivered once it is sent.
#[derive(Drop)]
struct Joined {
    reply: Reply,
    undelivered: ByteString,
}

impl<'a> Keeper for Joining<'a> {
    type Kept = Joined;

    ghost keeps = { λ s reply kept. (kept.reply ≡ reply) × (kept.undelivered ≡ s.undelivered.now ++ reply.say) };

    // Each takes memory.
    ghost is_ready_for = { λ s reply. ⊥ };

    fn keep(&self, alloc: Global, reply: Reply) -> Result<Joined, AllocError> {
        let mut undelivered = ByteString::from_slice(alloc, self.undelivered)?;
        undelivered.append(reply.say.as_slice())?;
        Ok(Joined { reply, undelivered })
    }

    fn reply<'k>(&self, kept: &'k Joined) -> &'k Reply {
        &kept.reply
    }
}

// What was sent on this side of a connection and is undelivered, where there is one.
fn undelivered_on(conns: &Connections, wire: Option<(Side, usize)>) -> &[u8]
    ensures { result.now ≡ undelivered_on conns.now wire }
{
    match wire {
        Some((side, place)) => conns.undelivered_by(place, side),
        None => &[],
    }
}

// These bytes are all that was sent on this side of a connection and is undelivered, where there is one.
fn put_undelivered(conns: &mut Connections, wire: Option<(Side, usize)>, bytes: ByteString)
    ensures { conns.new ≡ conns_with conns.old wire bytes }
{
    if let Some((side, place)) = wire {
        conns.put_undelivered(place, side, bytes);
    }
}

// A node makes a step, and what it sends is on its way. A refusal changes nothing.
fn make_step(
    node: &mut Node,
    conns: &mut Connections,
    wire: Option<(Side, usize)>,
    occasion: &Occasion<'_>,
) -> Result<Reply, StepError>
    ensures ok { IfOk result (λ r. HasSent r (step node.old occasion.now.event.now occasion.now.fresh) node.new wire conns.old conns.new) }
    ensures err { IfErr result (λ e. Refuses e (step node.old occasion.now.event.now occasion.now.fresh) × (node.new ≡ node.old) × (conns.new ≡ conns.old)) }
{
    let joining = Joining {
        undelivered: undelivered_on(conns, wire),
    };
    let Joined { reply, undelivered } = node.step_kept(
        occasion.alloc,
        &joining,
        occasion.event,
        occasion.fresh,
    )?;
    put_undelivered(conns, wire, undelivered);
    Ok(reply)
}

// ---- rows

fn close_row(rows: &mut Vec<EndRow>, closed: Option<(EndId, Why)>, clock: u64)
    ensures { rows.new.items ≡ rows_shut clock closed rows.old.items }
{
    if let Some((id, _)) = closed {
        let i = id.0 as usize;
        if i < rows.len() {
            let row = &mut rows[i];
            row.close(clock);
        }
    }
}

// The end that a name made doomed.
fn doomed_end(note: &Note) -> Option<EndId>
    ensures { result ≡ doomed_end note.now }
{
    match note {
        Note::NameTaken { peer: _, dooms } => *dooms,
        _ => None,
    }
}

fn doom(rows: &mut Vec<EndRow>, doomed: Option<EndId>, clock: u64)
    ensures { rows.new.items ≡ rows_doomed clock doomed rows.old.items }
{
    if let Some(id) = doomed {
        let i = id.0 as usize;
        if i < rows.len() {
            let row = &mut rows[i];
            row.doom(clock);
        }
    }
}

fn note_own(rows: &mut Vec<EndRow>, id: EndId, note: Note, is_up: bool, clock: u64)
    ensures { rows.new.items ≡ at_place id.0 (own_row clock note is_up) rows.old.items }
{
    let i = id.0 as usize;
    if i < rows.len() {
        let row = &mut rows[i];
        row.note(clock, note, is_up);
    }
}

// The rows get what a reply writes.
fn write_reply(rows: &mut Vec<EndRow>, clock: u64, reply: Reply) -> LifeStep
    ensures rows { rows.new.items ≡ at_each 0 (mark clock reply) rows.old.items }
    ensures made { result ≡ life_step_of reply }
{
    let Reply {
        end_,
        say: _,
        closed,
        up,
        note,
    } = reply;
    close_row(rows, closed, clock);
    doom(rows, doomed_end(&note), clock);
    note_own(rows, end_, note, up.is_some(), clock);
    LifeStep { end_, closed }
}

// An incarnation gets an event. A refusal changes nothing.
#[tactic(auto, using(crate::proofs::Writing::taken_back))]
pub fn step_life(
    node: &mut Node,
    rows: &mut Vec<EndRow>,
    conns: &mut Connections,
    wire: Option<(Side, usize)>,
    occasion: &Occasion<'_>,
) -> Result<LifeStep, StepError>
    ensures ok { IfOk result (λ h. HasMadeStep h (step node.old occasion.now.event.now occasion.now.fresh) occasion.now.clock occasion.now.event.now
        node.new rows.old.items rows.new.items wire conns.old conns.new) }
    ensures err { IfErr result (λ e. Refuses e (step node.old occasion.now.event.now occasion.now.fresh)
        × (node.new ≡ node.old) × (rows.new.items ≡ rows.old.items) × (conns.new ≡ conns.old)) }
{
    let before = rows.len();
    if push_row(rows, occasion.alloc, occasion.clock, occasion.event).is_err() {
        return Err(node.refusal_without_memory(occasion.alloc, occasion.event, occasion.fresh));
    }
    match make_step(node, conns, wire, occasion) {
        Ok(reply) => Ok(write_reply(rows, occasion.clock, reply)),
        Err(refusal) => {
            rows.truncate(before);
            Err(refusal)
        }
    }
}
