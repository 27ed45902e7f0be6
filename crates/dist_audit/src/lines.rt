//! The lines of all histories, in the order of their tickets.
ghost use Rattle.std.specs.Prelude.{◌≡◌, ◌++◌, OnOk, IfOk};
ghost use Rattle.dist_audit.specs.Lines.{lines_at, lines_by_node, AreLinesOf};

use dist_locked_book::{Closed, SharedLine};
use std::alloc::{AllocError, Global};
use std::marker::Model;

/// A line, the place of its node among all, and whether somebody outside did what it says.
#[derive(Drop)]
pub struct NodeLine<'a> {
    node: usize,
    line: &'a SharedLine,
    outside: bool,
}

impl<'a> Model for NodeLine<'a> {
    ghost use Rattle.dist_audit.specs.Lines as lines;

    ghost Value = { lines.NodeLine };

    ghost view = { λ t. record { node = t.node; line = t.line.now; outside = t.outside } };
}

impl<'a> NodeLine<'a> {
    /// The place of its node among all.
    pub fn node(&self) -> usize
        ensures { result ≡ self.now.node }
    {
        self.node
    }

    pub fn line(&self) -> &SharedLine
        ensures { result.now ≡ self.now.line }
    {
        self.line
    }

    /// Somebody outside did what it says.
    pub fn is_outside(&self) -> bool
        ensures { result ≡ self.now.outside }
    {
        self.outside
    }

    /// The same line, by whether somebody outside did what it says.
    pub fn with_outside(&self, outside: bool) -> NodeLine<'a>
        ensures { result ≡ record self.now { outside = outside } }
    {
        NodeLine {
            node: self.node,
            line: self.line,
            outside,
        }
    }
}

// Adds the lines of a node.
fn add_lines<'a>(
    lines: &mut Vec<NodeLine<'a>>,
    node: usize,
    history: &'a [SharedLine],
) -> Result<(), AllocError>
    ensures { OnOk result (lines.new.items ≡ lines.old.items ++ lines_at node history.now) }
{
    for line in history {
        lines.push(NodeLine {
            node,
            line,
            outside: false,
        })?;
    }
    Ok(())
}

// All lines, node by node.
fn lines_by_node(alloc: Global, closed: &[Closed]) -> Result<Vec<NodeLine>, AllocError>
    ensures { IfOk result (λ lines. lines.items ≡ lines_by_node closed.now) }
{
    let mut lines = Vec::new(alloc);
    for node in 0..closed.len() {
        add_lines(&mut lines, node, &closed[node].history)?;
    }
    Ok(lines)
}

/// All lines, in the order of their tickets.
pub fn lines_of(alloc: Global, closed: &[Closed]) -> Result<Vec<NodeLine>, AllocError>
    ensures { IfOk result (λ lines. AreLinesOf closed.now lines.items) }
{
    let mut lines = lines_by_node(alloc, closed)?;
    lines.sort_unstable_by_key(|noted| noted.line().ticket());
    Ok(lines)
}
