//! The nodes that are dialled in one run.

ghost use Rattle.std.specs.Prelude.{◌≡◌, ◌++◌, ◌∷◌, ◌<◌, ◌≤◌, ◌↔◌, [], IsTrue, OnErr, OnOk, length};

use dist_cluster::MOST_NODES;
use dist_names::NodeName;
use std::alloc::{AllocError, Global};

/// The nodes that are dialled in one run, 1,024 at most.
#[derive(Drop)]
pub struct Nodes {
    /// Their names, in the order in which they are dialled.
    pub names: Vec<NodeName>,
    // At most as many as a run may dial.
    pub ghost most: { length names.items ≤ 1024 },
}

impl Nodes {
    /// No node.
    pub fn new(alloc: Global) -> Nodes
        ensures { result.names.items ≡ [] }
    {
        Nodes {
            names: Vec::new(alloc),
        }
    }

    /// Whether the list is full.
    pub fn is_full(&self) -> bool
        ensures { IsTrue result ↔ (length self.now.names.items ≡ 1024) }
    {
        self.names.len() >= MOST_NODES
    }

    /// Adds a node.
    pub fn push(&mut self, node: NodeName) -> Result<(), AllocError>
        // The caller has asked `is_full`.
        requires { length self.old.names.items < 1024 }
        ensures ok { OnOk result (self.new.names.items ≡ self.old.names.items ++ node ∷ []) }
        ensures err { OnErr result (self.new.names.items ≡ self.old.names.items) }
    {
        self.names.push(node)?;
        Ok(())
    }
}
