ghost use Rattle.std.specs.Prelude.{◌≡◌, ◌≢◌, ◌<◌, ◌≤◌, ◌+◌, ◌++◌, ◌∷◌, [], vec_len, vec_capacity, false, IsTrue, Some, Ok, Err, IfOk, IfErr, OnOk, OnErr};
ghost use Rattle.dist_core.specs.{declared.reply.Reply.Reply, Clauses.end_of, Losses.IsGone, Losses.is_loss, Step.step};
ghost use Rattle.dist_drive.specs.Memory.{MayRefuse};

use crate::desk::Desk;
use dist_core::{Event, Node, Reply, StepError, Still};
use dist_core_laws::a_lost_end_is_closed;
use dist_peers::EndId;
use std::alloc::{AllocError, Global};
use std::marker::Model;

/// The desk of one end of a node that it holds itself.
#[derive(Drop)]
pub struct MemoryDesk {
    alloc: Global,
    node: Node,
    end_: EndId,
    steps: Vec<(Event, u32, Reply)>,
}

impl Model for MemoryDesk {
    ghost use Rattle.std.specs.Prelude.{◌≡◌, ◌<◌, vec_len, vec_capacity};
    ghost use Rattle.dist_drive.specs.Memory.{MemoryState, HasRoom};

    ghost Value = { MemoryState };

    ghost view = { λ d. record { end_ = d.end_; node = d.node; list = d.steps.items } };

    // while the end is open, there is room for one step more
    ghost invariant = { λ d. HasRoom d.node d.end_ (vec_len d.steps) (vec_capacity d.steps) };
}

impl MemoryDesk {
    /// The desk of this end of a node, with room for one step.
    pub fn new(alloc: Global, node: Node, end_: EndId) -> Result<MemoryDesk, AllocError>
        ensures { IfOk result (λ d. (d.end_ ≡ end_) × (d.node ≡ node) × (d.list ≡ [])) }
    {
        Ok(MemoryDesk {
            alloc,
            node,
            end_,
            steps: Vec::with_capacity(alloc, 1)?,
        })
    }

    /// The node as it is now.
    pub fn node(&self) -> &Node
        ensures { result.now ≡ self.now.node }
    {
        &self.node
    }

    /// The steps that were made, in order: the event, its number, the reply.
    pub fn list(&self) -> &[(Event, u32, Reply)]
        ensures { result.now ≡ self.now.list }
    {
        &self.steps
    }
}

// Makes room for a step and one more. Before a loss there is room already.
fn make_room(steps: &mut Vec<(Event, u32, Reply)>, loss: bool) -> Result<(), AllocError>
    ensures same { (steps.new.items ≡ steps.old.items) × (vec_len steps.new ≡ vec_len steps.old) }
    ensures kept { vec_capacity steps.old ≤ vec_capacity steps.new }
    ensures room { OnOk result (loss ≡ false → vec_len steps.new + 1 < vec_capacity steps.new) }
    ensures err { OnErr result (loss ≡ false) }
{
    if loss {
        return Ok(());
    }
    steps.reserve(2)
}

impl Desk for MemoryDesk {
    ghost use Rattle.dist_drive.specs.Memory.{memory_facts};

    type Base = ();

    ghost base = { λ d. tt };

    ghost serves = { λ d. d.end_ };

    ghost facts = { memory_facts };

    fn step(&mut self, event: Event, fresh: u32) -> Result<(), StepError>
        ensures ok { OnOk result ((reply : Reply)
            × (self.new.list ≡ self.old.list ++ (event, fresh, reply) ∷ [])
            × (step self.old.node event fresh ≡ Ok (reply, self.new.node))) }
        ensures err { OnErr result (self.new ≡ self.old) }
        ensures refused { IfErr result (λ e. MayRefuse self.old event fresh e) }
        ensures loss { IsTrue (is_loss event) → IfErr result IsGone }
        ensures other { end_of event ≢ Some self.old.end_ → result ≡ Err StepError.NoSuchEnd }
        ensures serves { self.new.end_ ≡ self.old.end_ }
    {
        if event.end_named() != Some(self.end_) {
            return Err(StepError::NoSuchEnd);
        }
        a_lost_end_is_closed();
        let Ok(()) = make_room(&mut self.steps, event.is_lost()) else {
            return Err(self.node.refusal_without_memory(self.alloc, &event, fresh));
        };
        let reply = self.node.step(self.alloc, &event, fresh)?;
        self.steps.push_reserved((event, fresh, reply));
        Ok(())
    }

    fn last(&self) -> Option<&Reply> {
        match self.steps.as_slice().last() {
            Some(step) => Some(&step.2),
            None => None,
        }
    }

    fn still(&self, end_: EndId) -> Still {
        self.node.still(end_)
    }
}
