//! All incarnations of all nodes.
ghost use Rattle.std.specs.Prelude.{◌≡◌, ◌<◌, ◌++◌, ◌∷◌, [], None, length, slice_get, option_copied, IfOk, OnOk, OnErr, MatchOption, true, false, ℕ};
ghost use Rattle.std.specs.Option.{option_map};
ghost use Rattle.dist_world_model.specs.Happenings.{life_after_end, new_life, reached_life, is_open_end};
ghost use Rattle.dist_world_model.specs.{Lists.at_place, Lists.first_where, World.runs_for, World.row_of_life, World.end_of_life};
ghost use Rattle.dist_world_lives.specs.{Stepping.wire_of, Links.is_unreached, Index.index_at, Notifying.HasNotified, Notifying.Declines, Resetting.Resets};
ghost use Rattle.dist_world_lives.specs.{Resetting.is_reset_memory_error};

use crate::Connections;
use crate::events::notify;
use crate::life::{Life, is_open};
use crate::stepping::{LifeStep, Occasion};
use dist_core::{Change, ChangeError, Node, Setup};
use dist_messages::Side;
use dist_names::Creation;
use dist_peers::EndId;
use std::alloc::{AllocError, Global};
use std::marker::Model;

/// All incarnations of all nodes, in the order of their beginnings, and which of them run.
#[derive(Drop)]
pub struct Lives {
    lives: Vec<Life>,
    /// The running incarnation of each node, as far as a node was begun.
    index: Vec<Option<usize>>,
}

impl Model for Lives {
    ghost use Rattle.std.specs.Prelude.{List};
    ghost use Rattle.dist_world_model.specs.World as world;
    ghost use Rattle.dist_world_lives.specs.Index.{IsIndexed};

    ghost Value = { List world.Life };

    ghost view = { λ a. a.lives.items };

    ghost invariant = { λ a. IsIndexed a.lives.items a.index.items };
}

// ---- the index

fn place_of_node(index: &[Option<usize>], node: usize) -> Option<usize>
    ensures { result ≡ index_at index.now node }
{
    if node < index.len() {
        index[node]
    } else {
        None
    }
}

fn set_place(index: &mut Vec<Option<usize>>, node: usize, place: Option<usize>)
    ensures { index.new.items ≡ at_place node (λ _. place) index.old.items }
{
    if node < index.len() {
        index[node] = place;
    }
}

// Makes room for a node. An `Err` changes nothing that the index has.
fn widen(index: &mut Vec<Option<usize>>, node: usize) -> Result<(), AllocError>
    ensures ok { OnOk result (node < length index.new.items) }
    ensures same { (i : ℕ) → index_at index.new.items i ≡ index_at index.old.items i }
{
    while index.len() <= node {
        index.push(None)?;
    }
    Ok(())
}

impl Lives {
    /// No node was begun. It takes no memory.
    pub fn new(alloc: Global) -> Lives
        ensures { result ≡ [] }
    {
        Lives {
            lives: Vec::new(alloc),
            index: Vec::new(alloc),
        }
    }

    pub fn len(&self) -> usize
        ensures { result ≡ length self.now }
    {
        self.lives.len()
    }

    /// The incarnation at this place.
    pub fn at(&self, place: usize) -> Option<&Life>
        ensures { option_copied result ≡ slice_get self.now place }
    {
        self.lives.get(place)
    }

    /// The running incarnation of a node.
    pub fn running(&self, node: usize) -> Option<usize>
        ensures { result ≡ first_where (runs_for node) self.now }
    {
        place_of_node(&self.index, node)
    }

    /// Which side of which connection an end of an incarnation is.
    pub fn wire(&self, place: usize, id: EndId) -> Option<(Side, usize)>
        ensures { result ≡ wire_of (row_of_life (slice_get self.now place) id.0) }
    {
        self.lives.get(place)?.wire(id)
    }

    /// The end is open.
    pub fn is_open(&self, place: usize, id: EndId) -> bool
        ensures { result ≡ is_open_end (end_of_life (slice_get self.now place) id.0) }
    {
        match self.lives.get(place) {
            Some(life) => is_open(life.node(), id),
            None => false,
        }
    }

    /// The end waits for a connection, and was not led to one yet.
    pub fn is_unreached(&self, place: usize, id: EndId) -> bool
        ensures { result ≡ is_unreached (slice_get self.now place) id.0 }
    {
        match self.lives.get(place) {
            Some(life) => life.node().is_dialing(id) && life.wire(id).is_none(),
            None => false,
        }
    }

    /// The node of an incarnation.
    pub fn node(&self, place: usize) -> Option<&Node>
        ensures { option_copied result ≡ option_map (λ l. l.node) (slice_get self.now place) }
    {
        let life = self.lives.get(place)?;
        Some(life.node())
    }

    /// Makes room for this many incarnations more, where there is memory for it: so they need not move as their number grows.
    pub fn make_room(&mut self, count: usize)
        ensures { self.new ≡ self.old }
    {
        let _ = self.lives.reserve(count);
    }

    /// A node that does not run begins anew. An `Err` changes nothing.
    pub fn begin(
        &mut self,
        alloc: Global,
        node: usize,
        clock: u64,
        setup: &Setup,
        creation: Creation,
    ) -> Result<(), AllocError>
        requires { first_where (runs_for node) self.old ≡ None }
        ensures ok { OnOk result (self.new ≡ self.old ++ new_life node clock setup.now creation ∷ []) }
        ensures err { OnErr result (self.new ≡ self.old) }
    {
        widen(&mut self.index, node)?;
        let place = self.lives.len();
        let life = Life::new(alloc, node, clock, setup, creation)?;
        push(&mut self.lives, life)?;
        set_place(&mut self.index, node, Some(place));
        Ok(())
    }

    /// The running incarnation of a node stops, where there is one.
    pub fn end(&mut self, node: usize, clock: u64) -> bool
        ensures { MatchOption (first_where (runs_for node) self.old)
            ((result ≡ false) × (self.new ≡ self.old))
            (λ place. (result ≡ true) × (self.new ≡ at_place place (life_after_end clock) self.old)) }
    {
        let Some(place) = place_of_node(&self.index, node) else {
            return false;
        };
        end_life(&mut self.lives, place, clock);
        set_place(&mut self.index, node, None);
        true
    }

    /// An incarnation changes its setup: whether its node made the change. A refusal changes nothing.
    pub fn reset(&mut self, place: usize, wanted: Change) -> Result<bool, AllocError>
        ensures { Resets result place wanted self.old self.new }
    {
        reset_life(&mut self.lives, place, wanted)
    }

    /// An end of an incarnation gets a connection.
    pub fn reach(&mut self, place: usize, id: EndId, conn: usize)
        ensures { self.new ≡ at_place place (reached_life id.0 conn) self.old }
    {
        reach_life(&mut self.lives, place, id, conn);
    }

    /// An incarnation gets an event. `None` where it does not run or refuses the event, which changes nothing.
    pub fn notify(
        &mut self,
        conns: &mut Connections,
        place: usize,
        occasion: &Occasion<'_>,
    ) -> Result<Option<(usize, LifeStep)>, AllocError>
        ensures ok { IfOk result (λ made. MatchOption made
            (Declines self.old place occasion.now.event.now occasion.now.fresh × (self.new ≡ self.old) × (conns.new ≡ conns.old))
            (λ x. HasNotified x.0 x.1 place occasion.now.clock occasion.now.event.now occasion.now.fresh self.old self.new conns.old conns.new)) }
        ensures err { OnErr result ((self.new ≡ self.old) × (conns.new ≡ conns.old)) }
    {
        notify(&mut self.lives, conns, place, occasion)
    }
}

// ---- incarnations

// A new incarnation stands behind all others. An `Err` changes nothing.
fn push(lives: &mut Vec<Life>, life: Life) -> Result<(), AllocError>
    ensures ok { OnOk result (lives.new.items ≡ lives.old.items ++ life ∷ []) }
    ensures err { OnErr result (lives.new.items ≡ lives.old.items) }
{
    lives.push(life)?;
    Ok(())
}

fn end_life(lives: &mut Vec<Life>, place: usize, clock: u64)
    ensures { lives.new.items ≡ at_place place (life_after_end clock) lives.old.items }
{
    if place < lives.len() {
        let life = &mut lives[place];
        life.end(clock);
    }
}

fn reset_life(lives: &mut Vec<Life>, place: usize, wanted: Change) -> Result<bool, AllocError>
    ensures { Resets result place wanted lives.old.items lives.new.items }
{
    if place >= lives.len() {
        return Ok(false);
    }
    let life = &mut lives[place];
    match life.reset(wanted) {
        Ok(()) => Ok(true),
        Err(refusal) => {
            if is_out_of_memory(refusal) {
                return Err(AllocError);
            }
            Ok(false)
        }
    }
}

// Out of memory, and no refusal of the change.
fn is_out_of_memory(refusal: ChangeError) -> bool
    ensures { result ≡ is_reset_memory_error refusal }
{
    matches!(refusal, ChangeError::NoMemory)
}

fn reach_life(lives: &mut Vec<Life>, place: usize, id: EndId, conn: usize)
    ensures { lives.new.items ≡ at_place place (reached_life id.0 conn) lives.old.items }
{
    if place < lives.len() {
        let life = &mut lives[place];
        life.reach(id, conn);
    }
}
