//! Whether closed nodes are those of the nodes file.

ghost use Rattle.std.specs.Prelude.{◌≡◌, ◌↔◌, IsTrue};
ghost use Rattle.dist_run_hosts.specs.Setups.{IsOfPlan, AreOfPlans};

use dist_core::Setup;
use dist_core_setup::{Limits, NameList};
use dist_locked::Closed;
use dist_run_plan::NodePlan;

fn is_same_allow(ours: &Option<NameList>, theirs: &Option<NameList>) -> bool
    ensures { IsTrue result ↔ (ours.now ≡ theirs.now) }
{
    match (ours, theirs) {
        (None, None) => true,
        (Some(ours), Some(theirs)) => ours.is_same(theirs),
        _ => false,
    }
}

// Whether a node is set up as its plan says.
fn is_of_plan(plan: &NodePlan, setup: &Setup) -> bool
    ensures { IsTrue result ↔ IsOfPlan plan.now setup.now }
{
    setup.name.is_same(&plan.name)
        && setup.cookies.is_same(&plan.cookies)
        && setup.version == plan.version
        && setup.flags == plan.flags
        && setup.required == plan.required
        && is_same_allow(&setup.allow, &plan.allow)
        && setup.limits == Limits::usual()
}

/// Whether the closed nodes are those of the plans: as many, in their order, each set up as its plan says, whatever creation it
/// got.
pub fn are_of_plans(plans: &[NodePlan], closed: &[Closed]) -> bool
    ensures { IsTrue result ↔ AreOfPlans plans.now closed.now }
{
    match plans {
        [] => closed.is_empty(),
        [plan, plans @ ..] => match closed {
            [] => false,
            [first, others @ ..] => {
                is_of_plan(plan, first.node.setup()) && are_of_plans(plans, others)
            }
        },
    }
}
