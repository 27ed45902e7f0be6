//! All that a world has, and one happening.
ghost use Rattle.std.specs.Prelude.{◌≡◌, ◌↔◌, ◌++◌, IsTrue, List, IsErrOf, ℕ, Ok, slice_get, option_copied, IfOk, OnOk};
ghost use Rattle.std.specs.Option.{option_map};
ghost use Rattle.dist_world_model.specs.{World.empty, World.running, Agreement.AreSetups, Agreement.IsFooled, Agreement.IsUp};
ghost use Rattle.dist_world.specs.{Setups.names_repeat, Asking.node_of, Asking.said_to, Asking.SaidNext, Asking.flat_closed, Ups.FindsPeer};
ghost use Rattle.dist_world_lives.specs.Links.{up_on};

use crate::setups::are_good;
use crate::world_error::WorldError;
use dist_core::{Node, Setup, UpRecord, Why};
use dist_peers::EndId;
use dist_world_lives::{Connections, Lives};
use std::alloc::Global;
use std::marker::Model;

mod moves;

/// Several nodes, all their incarnations, and the connections between them.
#[derive(Drop)]
pub struct Scene {
    setups: Vec<Setup>,
    lives: Lives,
    conns: Connections,
    /// How many happenings applied.
    clock: u64,
    /// What the step of the last of them closed, and at which node.
    last_closed: Option<(usize, (EndId, Why))>,
    /// Room for the body of a frame that is taken, kept from one to the next. No contract sees it.
    room: Vec<u8>,
}

impl Model for Scene {
    ghost use Rattle.dist_world_model.specs.World as world;

    ghost Value = { world.World };

    ghost view = { λ w. record { setups = w.setups.items; lives = w.lives; conns = w.conns; clock = w.clock; last_closed = w.last_closed } };
}

fn setup_at(setups: &[Setup], node: usize) -> Option<&Setup>
    ensures { option_copied result ≡ slice_get setups.now node }
{
    setups.get(node)
}

fn same_bytes(ours: &[u8], theirs: &[u8]) -> bool
    ensures { IsTrue result ↔ (ours.now ≡ theirs.now) }
{
    ours == theirs
}

fn begins_with(text: &[u8], bytes: &[u8]) -> bool
    ensures { IsTrue result ↔ ((rest : List ℕ) × (bytes.now ++ rest ≡ text.now)) }
{
    text.len() >= bytes.len() && same_bytes(&text[..bytes.len()], bytes)
}

impl Scene {
    /// A world of nodes with these setups, none of which runs yet. The creations of the setups are not used.
    pub fn new(alloc: Global, setups: Vec<Setup>) -> Result<Scene, WorldError>
        ensures ok { IfOk result (λ w. w ≡ empty setups.items) }
        ensures same { IsErrOf result WorldError.SameName ↔ IsTrue (names_repeat setups.items) }
        ensures memory { ¬ (IsErrOf result WorldError.NoMemory) }
        ensures good { OnOk result (AreSetups setups.items) }
    {
        if !are_good(alloc, &setups) {
            return Err(WorldError::SameName);
        }
        Ok(Scene {
            setups,
            lives: Lives::new(alloc),
            conns: Connections::new(alloc),
            clock: 0,
            last_closed: None,
            room: Vec::new(alloc),
        })
    }

    /// What the nodes begin with, but for their creations.
    pub fn setups(&self) -> &[Setup]
        ensures { result.now ≡ self.now.setups }
    {
        &self.setups
    }

    /// The running incarnation of a node.
    pub fn node(&self, node: usize) -> Option<&Node>
        ensures { option_copied result ≡ node_of self.now node }
    {
        self.lives.node(self.running(node)?)
    }

    /// The node, end and cause that the step of the last happening that applied closed. `None` where it closed none or made
    /// no step, or none applied yet.
    pub fn last_closed(&self) -> Option<(usize, EndId, Why)>
        ensures { result ≡ option_map flat_closed self.now.last_closed }
    {
        match self.last_closed {
            Some((node, (id, why))) => Some((node, id, why)),
            None => None,
        }
    }

    /// Whether the undelivered text for this end of the running incarnation begins with these bytes. `false` without a
    /// connection.
    pub fn said_next(&self, node: usize, id: EndId, bytes: &[u8]) -> bool
        ensures { SaidNext result (said_to self.now node id) bytes.now }
    {
        let Some(place) = self.running(node) else {
            return false;
        };
        let Some((side, conn)) = self.lives.wire(place, id) else {
            return false;
        };
        match self.conns.undelivered_text(conn, side) {
            Some(text) => begins_with(text, bytes),
            None => false,
        }
    }

    // The connection on which a node counts another as up, and the record of its end there.
    pub(crate) fn up_with(&self, a: usize, b: usize) -> Option<(usize, &UpRecord)>
        ensures found { FindsPeer self.now a b (option_map (λ r. (r.0, r.1.now)) result) }
        ensures only { (c : ℕ) (u : IsUp self.now a b c) → option_map (λ r. (r.0, r.1.now)) result ≡ up_on c u.kept }
    {
        let place = self.running(a)?;
        let setup = setup_at(&self.setups, b)?;
        let life = self.lives.at(place)?;
        life.up_with(&setup.name)
    }

    /// Whether a node takes somebody outside the world for another one.
    pub fn is_fooled(&self, a: usize, b: usize) -> bool
        ensures { IsTrue result ↔ IsFooled self.now a b }
    {
        let Some(place) = self.running(a) else {
            return false;
        };
        let Some(setup) = setup_at(&self.setups, b) else {
            return false;
        };
        let Some(life) = self.lives.at(place) else {
            return false;
        };
        life.is_fooled_by(&setup.name)
    }

    // The running incarnation of a node.
    fn running(&self, node: usize) -> Option<usize>
        ensures { result ≡ running self.now node }
    {
        self.lives.running(node)
    }
}
