//! The results for nodes that were dialled.

ghost use Rattle.std.specs.{Prelude.◌≡◌, Result.ForOk};

use dist_cluster::Half;
use dist_names::NodeName;
use distping_words::Fault;

/// The result for a node.
#[derive(Drop)]
pub struct NodeResult<'n> {
    /// What is kept of the probe.
    pub half: Half<'n>,
    /// What is printed of it.
    pub text: String,
}

/// What a thread returns that dialled a node.
#[derive(Drop)]
pub struct DialReply<'n> {
    /// The node.
    pub node: &'n NodeName,
    /// The lines of its steps that are still to be printed.
    pub steps: String,
    /// Its result, or the fault that stopped the probe.
    pub found: Result<NodeResult<'n>, Fault>,
    // It is that of this node.
    pub ghost own: { ForOk found (λ it. it.half.node.now ≡ node.now) },
}
