//! One incarnation of a node.
ghost use Rattle.std.specs.{Prelude.◌≡◌, Prelude.◌↔◌, Prelude.IsTrue, Prelude.ℕ, Prelude.◌<◌, Prelude.IfOk, Prelude.Some, Prelude.slice_get, Option.option_map};
ghost use Rattle.dist_core.specs.{Changing.IsChange, Changing.change, Step.step};
ghost use Rattle.dist_world_model.specs.Happenings.{life_after_end, with_node, reached_life, is_open_end, shut_all, new_life, reached_row, conn_of};
ghost use Rattle.dist_world_model.specs.{World.runs, World.runs_for, Lists.at_place};
ghost use Rattle.dist_world_lives.specs.{Stepping.IsLifeStep, Stepping.wire_of, Links.FindsLink, Links.link_of_record, Links.up_on};
ghost use Rattle.dist_world_lives.specs.Links.{is_unlinked, IsFooledBy};
ghost use Rattle.dist_core_ends.specs.declared.known.UpRecord.{UpRecord};
ghost use Rattle.dist_core_ends.specs.declared.known.End.TheVariants as end;

use crate::Connections;
use crate::row::EndRow;
use crate::stepping::{LifeStep, Occasion, step_life};
use dist_core::{Change, ChangeError, Node, Setup, StepError, Still, UpRecord};
use dist_messages::Side;
use dist_names::{Creation, NodeName};
use dist_peers::EndId;
use std::alloc::{AllocError, Global};
use std::marker::Model;

/// One incarnation of a node, also once it is over.
#[derive(Drop)]
pub struct Life {
    /// The node's place among the setups.
    who: usize,
    /// At which happening it began.
    begun: u64,
    /// At which it ended.
    over: Option<u64>,
    node: Node,
    rows: Vec<EndRow>,
}

impl Model for Life {
    ghost use Rattle.dist_world_model.specs.World as world;

    ghost Value = { world.Life };

    ghost view = { λ l. record { who = l.who; begun = l.begun; over = l.over; node = l.node; rows = l.rows.items } };
}

impl Life {
    /// An empty node with this setup and this creation.
    pub fn new(
        alloc: Global,
        who: usize,
        begun: u64,
        setup: &Setup,
        creation: Creation,
    ) -> Result<Life, AllocError>
        ensures { IfOk result (λ l. l ≡ new_life who begun setup.now creation) }
    {
        let mut setup = setup.try_clone(alloc)?;
        setup.creation = creation;
        Ok(Life {
            who,
            begun,
            over: None,
            node: Node::new(alloc, setup),
            rows: Vec::new(alloc),
        })
    }

    /// The node's place among the setups.
    pub fn who(&self) -> usize
        ensures { result ≡ self.now.who }
    {
        self.who
    }

    /// It is not over.
    pub fn runs(&self) -> bool
        ensures { result ≡ runs self.now }
    {
        self.over.is_none()
    }

    /// It is a running incarnation of this node.
    pub fn runs_for(&self, node: usize) -> bool
        ensures { result ≡ runs_for node self.now }
    {
        self.who == node && self.over.is_none()
    }

    pub fn node(&self) -> &Node
        ensures { result.now ≡ self.now.node }
    {
        &self.node
    }

    /// Which side of which connection an end is.
    pub fn wire(&self, id: EndId) -> Option<(Side, usize)>
        ensures { result ≡ wire_of (slice_get self.now.rows id.0) }
    {
        row_wire(&self.rows, id)
    }

    /// The connection of the end that is up with this peer, and its record.
    pub fn up_with(&self, peer: &NodeName) -> Option<(usize, &UpRecord)>
        ensures found { FindsLink self.now peer.now (option_map (λ r. (r.0, r.1.now)) result) }
        ensures only { (i c : ℕ) (kept : UpRecord)
            → slice_get self.now.node.ends i ≡ Some (end.Up kept) → kept.peer ≡ peer.now → conn_of (slice_get self.now.rows i) ≡ Some c
            → option_map (λ r. (r.0, r.1.now)) result ≡ up_on c kept }
    {
        link_of_record(&self.rows, self.node.up_with(peer))
    }

    /// Whether it is up with somebody outside the world under this name.
    pub fn is_fooled_by(&self, peer: &NodeName) -> bool
        ensures { IsTrue result ↔ IsFooledBy self.now peer.now }
    {
        is_unlinked(&self.rows, self.node.up_with(peer))
    }

    /// It gets an event, and sends what the reply says on this side of a connection. A refusal changes nothing.
    pub fn step(
        &mut self,
        conns: &mut Connections,
        wire: Option<(Side, usize)>,
        occasion: &Occasion<'_>,
    ) -> Result<LifeStep, StepError>
        ensures { IsLifeStep result (step self.old.node occasion.now.event.now occasion.now.fresh)
            occasion.now.clock occasion.now.event.now self.old self.new wire conns.old conns.new }
    {
        step_life(&mut self.node, &mut self.rows, conns, wire, occasion)
    }

    /// Its node changes its setup, or refuses the change.
    pub fn reset(&mut self, wanted: Change) -> Result<(), ChangeError>
        ensures node { IsChange result (change self.old.node wanted) self.old.node self.new.node }
        ensures same { self.new ≡ with_node self.new.node self.old }
    {
        self.node.change(wanted)
    }

    /// An end gets a connection.
    pub fn reach(&mut self, id: EndId, conn: usize)
        ensures { self.new ≡ reached_life id.0 conn self.old }
    {
        reach_row(&mut self.rows, id, conn);
    }

    /// It is over, and all its ends are closed.
    pub fn end(&mut self, clock: u64)
        ensures { self.new ≡ life_after_end clock self.old }
    {
        shut_all(&mut self.rows, clock);
        self.over = Some(clock);
    }
}

fn row_wire(rows: &[EndRow], id: EndId) -> Option<(Side, usize)>
    ensures { result ≡ wire_of (slice_get rows.now id.0) }
{
    let row = rows.get(id.0 as usize)?;
    match row.conn() {
        Some(conn) => Some((row.side(), conn)),
        None => None,
    }
}

fn reach_row(rows: &mut Vec<EndRow>, id: EndId, conn: usize)
    ensures { rows.new.items ≡ at_place id.0 (reached_row conn) rows.old.items }
{
    let i = id.0 as usize;
    if i < rows.len() {
        let row = &mut rows[i];
        row.reach(conn);
    }
}

fn shut_all(rows: &mut [EndRow], clock: u64)
    ensures { rows.new ≡ shut_all clock rows.old }
{
    for row in rows.iter_mut() {
        row.close(clock);
    }
}

// ---- what a node says of its ends

/// The end is open.
pub fn is_open(node: &Node, id: EndId) -> bool
    ensures { result ≡ is_open_end (slice_get node.now.ends id.0) }
{
    match node.still(id) {
        Still::Pending | Still::Up => true,
        Still::NoSuchEnd | Still::Gone(_) => false,
    }
}

// The end of this record has no connection.
fn is_unlinked(rows: &[EndRow], up: Option<(EndId, &UpRecord)>) -> bool
    ensures { result ≡ is_unlinked rows.now (option_map (λ r. (r.0, r.1.now)) up.entry) }
{
    match up {
        Some((id, _)) => row_wire(rows, id).is_none(),
        None => false,
    }
}

// The connection of an end, beside its record.
fn link_of_record<'a>(
    rows: &[EndRow],
    up: Option<(EndId, &'a UpRecord)>,
) -> Option<(usize, &'a UpRecord)>
    ensures { option_map (λ r. (r.0, r.1.now)) result ≡ link_of_record rows.now (option_map (λ r. (r.0, r.1.now)) up.entry) }
{
    let (id, kept) = up?;
    let row = rows.get(id.0 as usize)?;
    Some((row.conn()?, kept))
}
