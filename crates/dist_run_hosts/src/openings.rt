//! Whether nodes were dialled with the openings of their versions.

ghost use Rattle.std.specs.Prelude.{◌≡◌, ◌↔◌, All, IsTrue};
ghost use Rattle.dist_run_hosts.specs.Orders.{opening_of, HasOpeningFor, HasOpening, HaveOpenings};

use dist_core::{Event, Opening, Version};
use dist_locked::SharedLine;
use dist_run_plan::NodePlan;

// How a node of this version is dialled.
fn opening_of(version: Version) -> Opening
    ensures { result ≡ opening_of version }
{
    match version {
        Version::Five => Opening::Old,
        Version::Six => Opening::New,
    }
}

// Whether the event is no dial of this node, or one with its opening.
fn has_opening_for(event: &Event, node: &NodePlan) -> bool
    ensures { IsTrue result ↔ HasOpeningFor event.now node.now }
{
    match event {
        Event::Dial { peer, opening } => {
            peer.short() != node.name.short() || *opening == opening_of(node.version)
        }
        _ => true,
    }
}

#[tactic(auto, unfolding(crate::specs::Orders::HasOpening))]
fn has_opening(nodes: &[NodePlan], event: &Event) -> bool
    ensures { IsTrue result ↔ HasOpening nodes.now event.now }
{
    nodes.iter().all(|node| has_opening_for(event, node))
}

fn has_line_opening(nodes: &[NodePlan], line: &SharedLine) -> bool
    ensures { IsTrue result ↔ HasOpening nodes.now (let l = line.now in l.event) }
{
    let view = line.read();
    has_opening(nodes, &view.line().event)
}

/// Whether each of these dials of a node of the file has that node's opening.
#[tactic(auto, unfolding(crate::specs::Orders::HaveOpenings))]
pub fn have_openings(nodes: &[NodePlan], lines: &[SharedLine]) -> bool
    ensures { IsTrue result ↔ HaveOpenings nodes.now lines.now }
{
    lines.iter().all(|line| has_line_opening(nodes, line))
}
