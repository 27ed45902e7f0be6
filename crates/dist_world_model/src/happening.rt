//! What can happen in a world.
ghost use Rattle.std.specs.Prelude.{◌<◌, ◌^◌};
ghost use Rattle.dist_world_model.specs.Agreement.{Fits};

use dist_core::{Change, Event, Opening, Setup, Why};
use dist_names::{Creation, NodeName};
use dist_peers::EndId;

/// What can happen in a world: our own choice, which covers whatever a network, a user and a restart can do to nodes.
///
/// A `node` is a node's place in the list of setups, a `conn` a connection's number (from 0, in the order in which they were
/// made), an `end_` the number of an end of the node's running incarnation. A number that names nothing makes a happening
/// not apply, and one that does not apply changes nothing. After 2^62 that applied, none applies any more.
#[derive(Drop)]
pub enum Happening {
    /// The node, which does not run, begins anew with this creation, and no ends. The setup's own creation is not used, and
    /// one may be used again. A world has at most 2^48 begins.
    Begin {
        node: usize,
        creation: Creation,
    },
    /// The node, which does not run, begins anew with this setup, and no ends: another release of it, say, with other flags. It
    /// applies where the setup has the node's name.
    BeginAs {
        node: usize,
        setup: Setup,
    },
    /// The running node stops, and all its ends are closed. No other node learns of it.
    Halt {
        node: usize,
    },
    /// The node is asked to connect to this peer: the event `Dial`. It applies where the step succeeds.
    Dial {
        node: usize,
        peer: NodeName,
        opening: Opening,
    },
    /// A tick is due on this end: the event `Tick`. It applies where the step succeeds.
    Tick {
        node: usize,
        end_: EndId,
    },
    /// The dialled end, which waits for its connection and has none, gets the next one. It leads to the running incarnation
    /// of this target, whoever was dialled. A world has at most 2^48 connections.
    Reach {
        node: usize,
        end_: EndId,
        target: usize,
    },
    /// The dialled end learns that its connection is there: the event `Opened`, whose link is the connection's number. It
    /// applies where the end has one and the step succeeds.
    Opened {
        node: usize,
        end_: EndId,
    },
    /// The incarnation that the connection leads to learns of it: the event `Incoming`. It applies once for a connection,
    /// where that incarnation still runs and the step succeeds.
    Accept {
        conn: usize,
    },
    /// Of what the other side sent, the next `bytes` bytes that are undelivered come to this open end, or those that are
    /// left. It applies where that is at least one.
    Deliver {
        node: usize,
        end_: EndId,
        bytes: usize,
    },
    /// The end takes the first whole frame of what came: the event `Frame`, with `fresh` as the challenge that was drawn for
    /// it. It applies where there is such a frame and the step succeeds.
    Take {
        node: usize,
        end_: EndId,
        fresh: u32,
    },
    /// The open end learns that its connection is lost, for this cause: the event `Lost`. The other side does not learn of it.
    Lose {
        node: usize,
        end_: EndId,
        why: Why,
    },
    /// The running node changes its cookies or the list of the peers that may connect, as `Node::change` does. It applies
    /// where the change is not refused. No other node learns of it, and every end stays as it is.
    Reset {
        node: usize,
        change: Change,
    },
    /// Somebody who is no node of the world, as any other node or a port scanner, does this to a running node: `Incoming`, where
    /// the link is 2^48 or more; `Opened`, at a dialled end that has no connection of the world; `Frame`, at an end that has
    /// none. It applies where the step succeeds. What the end says goes to nobody of the world.
    Outside {
        node: usize,
        event: Event,
        fresh: u32,
    },
}

// A number of 32 bits is below 2^32.
fn fits(number: u32)
    ensures { number < 2 ^ 32 }
{
    let _number = number;
}

impl Happening {
    /// What the types of its numbers say: a creation and a challenge are below 2^32. It does nothing.
    pub fn recall_ranges(&self)
        ensures { Fits self.now }
    {
        match self {
            Happening::Begin { node: _, creation } => fits(creation.0),
            Happening::BeginAs { node: _, setup } => fits(setup.creation.0),
            Happening::Take {
                node: _,
                end_: _,
                fresh,
            } => fits(*fresh),
            Happening::Outside {
                node: _,
                event: _,
                fresh,
            } => fits(*fresh),
            _ => {}
        }
    }
}
