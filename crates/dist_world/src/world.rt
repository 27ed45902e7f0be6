//! The world.
ghost use Rattle.std.specs.Prelude.{◌≡◌, ◌↔◌, ◌≢◌, ◌<◌, ℕ, List, Some, length, take, option_copied, IfOk, IfErr, OnOk, IsErrOf, IsTrue};
ghost use Rattle.std.specs.Option.{option_map};
ghost use Rattle.dist_world_model.specs.Agreement.{Agreement as NodesAgree, Counts, IsFooled, IsUp, OpenAgreement};
ghost use Rattle.dist_world_model.specs.{declared.happening.Happening.Happening, OwnSetups.AreAsBegun};
ghost use Rattle.dist_world_model.specs.{World.empty, Run.run, Run.count_applied, Laws.AllLives, Laws.Decided};
ghost use Rattle.dist_world.specs.{Setups.names_repeat, Asking.node_of, Asking.said_to, Asking.SaidNext, Asking.flat_closed, Ups.agreement_on};
ghost use Rattle.dist_world.specs.{Ups.FindsBoth, Ups.FindsAgreed, Ups.IsReported};

use crate::agreement::Agreement;
use crate::run::Stopped;
use crate::scene::Scene;
use crate::world_error::WorldError;
use dist_core::{Node, Setup, Why};
use dist_peers::EndId;
use dist_world_model::{
    Happening, crossings_are_decided, nodes_agree, ups_are_linked, worlds_are_reached,
};
use std::alloc::Global;
use std::marker::Model;

/// Several nodes, all their incarnations, and the connections between them. There is no world but those that happenings
/// lead to, so the agreement theorem holds of each.
///
/// It is our own: the standard speaks of one connection.
#[derive(Drop)]
pub struct World {
    scene: Scene,
}

impl Model for World {
    ghost use Rattle.dist_world_model.specs.World as world;
    ghost use Rattle.dist_world_model.specs.Agreement.{IsReached};

    ghost Value = { world.World };

    ghost view = { λ w. w.scene };

    ghost invariant = { λ w. IsReached w.scene };
}

impl World {
    /// A world of nodes with these setups, none of which runs yet. The creations of the setups are not used.
    ///
    /// `SameName` where two setups have one name, and never `NoMemory`: it takes memory for a set of the names while it looks
    /// for these; where none is left for it, it compares each two in place.
    pub fn new(alloc: Global, setups: Vec<Setup>) -> Result<World, WorldError>
        ensures ok { IfOk result (λ w. w ≡ empty setups.items) }
        ensures same { IsErrOf result WorldError.SameName ↔ IsTrue (names_repeat setups.items) }
        ensures memory { ¬ (IsErrOf result WorldError.NoMemory) }
    {
        worlds_are_reached();
        let scene = Scene::new(alloc, setups)?;
        Ok(World { scene })
    }

    /// Lets these happenings happen in turn, and returns how many applied. One that does not apply changes nothing: among
    /// others a begin after 2^48 of them, a reach after 2^48 connections, and anything after 2^62 happenings that applied.
    ///
    /// It fails only where memory runs out, and the world then stands after the first `done` happenings of the list: no happening
    /// applies in part, and the others can be run from there.
    #[inline(always)]
    pub fn run(&mut self, alloc: Global, happenings: &[Happening]) -> Result<usize, Stopped>
        ensures after { OnOk result (self.new ≡ run happenings.now self.old) }
        ensures count { IfOk result (λ n. n ≡ count_applied happenings.now self.old) }
        ensures stopped { IfErr result (λ s. (s.done < length happenings.now) × (self.new ≡ run (take s.done happenings.now) self.old)) }

        // Of two attempts that cross at a node, the lesser name's never comes up there.
        ensures decided { AllLives Decided self.new }

        // Two running nodes that each count the other as up do so over one connection, with the flags that both announced
        // and each other's creation where known, each holding the digest of its own cookie for the other and its challenge.
        // Where each does it on a connection of the world, nothing else is asked; where it may be on whatever, that none of the two
        // takes somebody outside for the other.
        ensures agree { NodesAgree self.new }
        ensures strangers { OpenAgreement self.new }
    {
        worlds_are_reached();
        crossings_are_decided();
        nodes_agree();
        self.scene.run(alloc, happenings)
    }

    /// What nodes `a` and `b`, by their places among the setups, have in common where they are two different running nodes
    /// and each has an end that is up on a connection and whose peer is the other. `None` otherwise, also where one of them is no
    /// node, or takes somebody outside the world for the other.
    pub fn both_up(&self, a: usize, b: usize) -> Option<Agreement>
        ensures found { FindsBoth self.now a b result }
        ensures only { (c d : ℕ) (x : IsUp self.now a b c) (y : IsUp self.now b a d) → a ≢ b → result ≡ Some (agreement_on c x.kept y.kept) }
        ensures counted { (x : Counts self.now a b) (y : Counts self.now b a) → a ≢ b
            → (IsFooled self.now a b → ⊥) → (IsFooled self.now b a → ⊥) → IsReported result x.kept y.kept }

        // What is returned is what they agree on.
        ensures agree { FindsAgreed self.now a b result }

        // Each running node has the setup with which happenings that lead to this world began it, but for its cookies and its
        // allow list.
        ensures traced { (happenings : List Happening)
            × (self.now ≡ run happenings (empty self.now.setups)) × AreAsBegun self.now.setups happenings self.now }
    {
        ups_are_linked();
        nodes_agree();
        self.scene.both_up(a, b)
    }

    /// Whether node `a` counts node `b` as up on an end whose other side is somebody outside the world, so that nothing is promised
    /// of the two.
    pub fn is_fooled(&self, a: usize, b: usize) -> bool
        ensures { IsTrue result ↔ IsFooled self.now a b }
    {
        self.scene.is_fooled(a, b)
    }

    /// What the nodes begin with, in the order of their places. The creations in it are not used, and a node that runs may have
    /// begun with another setup of its name (`Happening::BeginAs`), or changed its cookies and the peers that may connect since
    /// (`Happening::Reset`).
    pub fn setups(&self) -> &[Setup]
        ensures { result.now ≡ self.now.setups }
    {
        self.scene.setups()
    }

    /// The running incarnation of the node at this place. `None` where it does not run, or there is no such node.
    pub fn node(&self, node: usize) -> Option<&Node>
        ensures { option_copied result ≡ node_of self.now node }
    {
        self.scene.node(node)
    }

    /// The node, end and cause that the step of the last happening that applied closed: its own end, or another one. `None`
    /// where it closed none or made no step (`Begin`, `BeginAs`, `Halt`, `Reset`, `Reach`, `Deliver`), or none applied yet.
    pub fn last_closed(&self) -> Option<(usize, EndId, Why)>
        ensures { result ≡ option_map flat_closed self.now.last_closed }
    {
        self.scene.last_closed()
    }

    /// Whether what the other side sent and is undelivered for this end of the node's running incarnation begins with these
    /// bytes. `false` without a connection; with no bytes and a connection, true.
    pub fn said_next(&self, node: usize, id: EndId, bytes: &[u8]) -> bool
        ensures { SaidNext result (said_to self.now node id) bytes.now }
    {
        self.scene.said_next(node, id, bytes)
    }
}
