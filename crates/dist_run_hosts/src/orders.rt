//! Whether the orders of a nodes file were followed.

ghost use Rattle.std.specs.{Prelude.◌≡◌, Prelude.◌↔◌, Prelude.◌+◌, Prelude.All, Prelude.length, Prelude.count_by, Prelude.IsTrue, List.AllByRecursion};
ghost use Rattle.dist_run_hosts.specs.Orders.{is_dial_of, is_order, is_fault_of, count_dials, RiseWithin};
ghost use Rattle.dist_run_hosts.specs.Orders.{IsObeyed, IsObedient, AreObeyed, PeerIsObeyed, OrderIsObeyed, LineIsObeyed};

use crate::openings::have_openings;
use crate::order_fault::OrderFault;
use dist_core::Event;
use dist_locked::{Closed, SharedLine};
use dist_names::NodeName;
use dist_run_plan::{DialPlan, Plan};

fn is_dial_of(event: &Event, to: &NodeName) -> bool
    ensures { result ≡ is_dial_of to.now event.now }
{
    match event {
        Event::Dial { peer, opening: _ } => peer.is_same(to),
        _ => false,
    }
}

fn is_order(order: &DialPlan, from: &NodeName, to: &NodeName) -> bool
    ensures { result ≡ is_order from.now to.now order.now }
{
    order.from.is_same(from) && order.to.is_same(to)
}

fn is_fault_of(orders: &[DialPlan], from: &NodeName, to: &NodeName, fault: &OrderFault) -> bool
    ensures { result ≡ is_fault_of orders.now from.now to.now fault.now }
{
    match orders.get(fault.number as usize) {
        Some(order) => is_order(order, from, to),
        None => false,
    }
}

// Whether a line is of a dial of this peer.
fn is_dial_line(line: &SharedLine, to: &NodeName) -> bool
    ensures { result ≡ is_dial_of to.now (let l = line.now in l.event) }
{
    let view = line.read();
    is_dial_of(&view.line().event, to)
}

// How often a node dialled this peer.
fn count_dials(history: &[SharedLine], to: &NodeName) -> usize
    ensures { result ≡ count_dials to.now history.now }
{
    history.iter().filter(|line| is_dial_line(line, to)).count()
}

// How many orders a node has to dial this peer.
fn count_orders(orders: &[DialPlan], from: &NodeName, to: &NodeName) -> usize
    ensures { result ≡ count_by (is_order from.now to.now) orders.now }
{
    orders
        .iter()
        .filter(|order| is_order(order, from, to))
        .count()
}

// How many of them are reported.
fn count_faults(orders: &[DialPlan], faults: &[OrderFault], from: &NodeName, to: &NodeName) -> usize
    ensures { result ≡ count_by (is_fault_of orders.now from.now to.now) faults.now }
{
    faults
        .iter()
        .filter(|fault| is_fault_of(orders, from, to, fault))
        .count()
}

fn is_sum(one: usize, other: usize, sum: usize) -> bool
    ensures { IsTrue result ↔ (one + other ≡ sum) }
{
    match one.checked_add(other) {
        Some(both) => both == sum,
        None => false,
    }
}

// Whether each order of a node to dial this peer was followed once or is reported, and the node dialled the peer no more often.
fn is_obeyed(orders: &[DialPlan], faults: &[OrderFault], closed: &Closed, to: &NodeName) -> bool
    ensures { IsTrue result ↔ IsObeyed orders.now faults.now closed.now to.now }
{
    let from = closed.node.name();
    let ordered = count_orders(orders, from, to);
    let reported = count_faults(orders, faults, from, to);
    let dialled = count_dials(closed.history.as_slice(), to);
    is_sum(dialled, reported, ordered)
}

// The same of the peer of a dial.
fn is_peer_obeyed(
    orders: &[DialPlan],
    faults: &[OrderFault],
    closed: &Closed,
    event: &Event,
) -> bool
    ensures { IsTrue result ↔ PeerIsObeyed orders.now faults.now closed.now event.now }
{
    match event {
        Event::Dial { peer, opening: _ } => is_obeyed(orders, faults, closed, peer),
        _ => true,
    }
}

fn is_line_obeyed(
    orders: &[DialPlan],
    faults: &[OrderFault],
    closed: &Closed,
    line: &SharedLine,
) -> bool
    ensures { IsTrue result ↔ LineIsObeyed orders.now faults.now closed.now line.now }
{
    let view = line.read();
    is_peer_obeyed(orders, faults, closed, &view.line().event)
}

fn is_order_obeyed(
    orders: &[DialPlan],
    faults: &[OrderFault],
    closed: &Closed,
    order: &DialPlan,
) -> bool
    ensures { IsTrue result ↔ OrderIsObeyed orders.now faults.now closed.now order.now }
{
    is_obeyed(orders, faults, closed, &order.to)
}

// The same of all peers that some orders name.
fn are_followed(
    orders: &[DialPlan],
    faults: &[OrderFault],
    closed: &Closed,
    some: &[DialPlan],
) -> bool
    ensures { IsTrue result ↔ AllByRecursion (OrderIsObeyed orders.now faults.now closed.now) some.now }
{
    match some {
        [] => true,
        [order, others @ ..] => {
            is_order_obeyed(orders, faults, closed, order)
                && are_followed(orders, faults, closed, others)
        }
    }
}

// The same of all peers that these lines dial.
fn are_ordered(
    orders: &[DialPlan],
    faults: &[OrderFault],
    closed: &Closed,
    lines: &[SharedLine],
) -> bool
    ensures { IsTrue result ↔ All (LineIsObeyed orders.now faults.now closed.now) lines.now }
{
    lines
        .iter()
        .all(|line| is_line_obeyed(orders, faults, closed, line))
}

// The same of all that the file names, and of all that a node dialled.
fn are_named(
    orders: &[DialPlan],
    faults: &[OrderFault],
    closed: &Closed,
    lines: &[SharedLine],
) -> bool
    ensures { IsTrue result ↔ (AllByRecursion (OrderIsObeyed orders.now faults.now closed.now) orders.now
        × All (LineIsObeyed orders.now faults.now closed.now) lines.now) }
{
    are_followed(orders, faults, closed, orders) && are_ordered(orders, faults, closed, lines)
}

// The same of all peers, and each was dialled with its opening.
fn is_obedient(plan: &Plan, faults: &[OrderFault], closed: &Closed) -> bool
    ensures { IsTrue result ↔ IsObedient plan.now faults.now closed.now }
{
    let (nodes, orders) = (plan.node.as_slice(), plan.dial.as_slice());
    let lines = closed.history.as_slice();
    have_openings(nodes, lines) && are_named(orders, faults, closed, lines)
}

// The same of all nodes.
fn are_obedient(plan: &Plan, faults: &[OrderFault], closed: &[Closed]) -> bool
    ensures { IsTrue result ↔ All (IsObedient plan.now faults.now) closed.now }
{
    closed.iter().all(|node| is_obedient(plan, faults, node))
}

// Whether the numbers of faults rise, the first of them from here.
fn rise_within(least: usize, most: usize, faults: &[OrderFault]) -> bool
    ensures { IsTrue result ↔ RiseWithin least most faults.now }
{
    match faults {
        [] => true,
        [fault, others @ ..] => {
            let number = fault.number as usize;
            least <= number && number < most && rise_within(number + 1, most, others)
        }
    }
}

/// Whether each order of the file was followed once, with the opening of its peer's version where the peer is of the file, or is
/// reported and was not, and no node made another dial.
pub fn are_obeyed(plan: &Plan, faults: &[OrderFault], closed: &[Closed]) -> bool
    ensures { IsTrue result ↔ AreObeyed plan.now faults.now closed.now }
{
    rise_within(0, plan.dial.as_slice().len(), faults) && are_obedient(plan, faults, closed)
}
