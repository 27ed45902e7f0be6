//! Nodes under locks, each with two seats that give it events in turn, and the queue of dial orders.

use crate::setting::{CHALLENGE, LETTERS, event, setup_of, word};
use dist_locked::{CloseError, Closed, DialOrder, LockedNode, Orders, Seat, Tickets, close};
use std::alloc::Global;
use std::sync::{Arc, Wait};
use std::test::*;

// The frame of the status `ok` of node b, and that of its challenge 123456789.
const GREETING_OF_B: &[u8] =
    b"\x00\x03sok\x00\x1eN\x00\x00\x00\x01\x01\x00\x01\x04\x07\x5b\xcd\x15\x00\x00\x00\x06\x00\x0bb@127.0.0.1";

/// A node under a lock, and its two seats.
#[derive(Drop)]
pub struct SeatedNode {
    pub node: LockedNode,
    pub seats: Vec<Seat>,
}

fn seated_node(alloc: Global, tickets: &Arc<Tickets, Global>, letter: &str) -> Option<SeatedNode> {
    let tickets = Arc::try_clone(tickets).ok()?;
    let (node, seats) = LockedNode::new(alloc, setup_of(alloc, letter)?, tickets, 2).ok()?;
    Some(SeatedNode { node, seats })
}

// Nodes a and b, which draw their tickets from one counter.
fn sides_of(alloc: Global) -> Option<Vec<SeatedNode>> {
    let tickets = Arc::new(alloc, Tickets::new()).ok()?;
    let mut sides = Vec::new(alloc);
    for letter in ["a", "b"] {
        let side = seated_node(alloc, &tickets, letter)?;
        sides.push(side).ok()?;
    }
    Some(sides)
}

// Makes the steps of a text, `NODE WORD, NODE WORD, ..`, by the first and the second seats in turn, and counts them. `None`: one was
// refused.
fn play(
    rt: &impl Wait,
    alloc: Global,
    sides: &mut [SeatedNode],
    text: &str,
    made: &mut usize,
) -> Option<()> {
    for step in text.split(", ") {
        let side = sides.get_mut(LETTERS.find(word(step, 0))?)?;
        let seat = side.seats.get_mut(*made % 2)?;
        let event = event(alloc, word(step, 1))?;
        if side.node.step(rt, seat, &event, CHALLENGE).is_err() {
            return None;
        }
        *made = made.saturating_add(1);
    }
    Some(())
}

/// Nodes a and b after these steps.
pub fn sides_after(rt: &impl Wait, alloc: Global, steps: &str) -> Option<Vec<SeatedNode>> {
    let mut sides = sides_of(alloc)?;
    play(rt, alloc, &mut sides, steps, &mut 0)?;
    Some(sides)
}

/// Node b after these steps.
pub fn node_b_after(rt: &impl Wait, alloc: Global, steps: &str) -> Option<SeatedNode> {
    sides_after(rt, alloc, steps)?.pop()
}

/// The node with its history, once all its steps are made.
pub fn close_side(side: SeatedNode) -> Option<Closed> {
    close(side.node.into_book(), side.seats).ok()
}

/// How many lines the history of a node then has, how many entries it has, and how many of its ends are up, and open.
pub fn closing(side: SeatedNode) -> Option<[usize; 4]> {
    let Closed { node, history } = close_side(side)?;
    Some([history.len(), node.entries(), node.ups(), node.open_ends()])
}

// Whether the first receipt of the second seat, if it has one, sends the status and the challenge of node b, with its name, flags and
// creation: a locked node keeps its setup.
fn is_greeting(seats: &[Seat]) -> Option<bool> {
    match seats.get(1)?.receipts().first() {
        Some(receipt) => Some(receipt.line.say() == GREETING_OF_B),
        None => Some(true),
    }
}

// The steps of node b, and the result of `closing` after none to all of them.
const STEPS: &str = "b incoming, b name, b reply, b incoming";

const CLOSINGS: [[usize; 4]; 5] = [
    [0, 0, 0, 0],
    [1, 0, 0, 1],
    [2, 1, 0, 1],
    [3, 1, 1, 1],
    [4, 1, 1, 2],
];

// Whether the second seat has the greeting, and `closing` the right result, for the steps that were made. How many these are at least,
// the caller says. `None`: memory was refused to the test itself.
fn is_closed(rt: &impl Wait, alloc: Global, least: usize) -> Option<bool> {
    let mut sides = sides_of(alloc)?;
    let mut made = 0usize;
    let _ = play(rt, alloc, &mut sides, STEPS, &mut made);
    let side = sides.pop()?;
    let is_kept = is_greeting(&side.seats)?;
    let closing = closing(side)?;
    Some(is_kept && made >= least && CLOSINGS.get(made) == Some(&closing))
}

// Each request for memory of a node under a lock is refused in turn, as `rt try --test --fail-alloc N` does for N = 1, 2, ..: a step
// that runs out of memory leaves the node, its history and the seats unchanged.
#[test]
fn memory_refused_in_a_step(rt: HostRuntime) {
    assert!(rt; is_closed(&rt, rt.alloc(), 0) != Some(false));
}

// The second seat of node a makes three steps, after two of node b.
const STEPS_OF_ANOTHER: &str = "\
    b incoming, b name, a incoming, a incoming, a incoming, a incoming, a incoming, a incoming";

// Why node b is not closed without its second seat, or with that of node a in its place.
fn refusal_without(rt: &impl Wait, alloc: Global, is_replaced: bool) -> Option<CloseError> {
    let mut sides = sides_after(rt, alloc, STEPS_OF_ANOTHER)?;
    let (mut side, mut other) = (sides.pop()?, sides.pop()?);
    let _ = side.seats.pop();
    if is_replaced {
        side.seats.push(other.seats.pop()?).ok()?;
    }
    match close(side.node.into_book(), side.seats) {
        Ok(_) => None,
        Err((error, _, _)) => Some(error),
    }
}

// The orders 4, 5 and 6 are put into a queue of two, three are taken, 7 is put and taken.
fn are_in_turn(rt: &impl Wait, alloc: Global) -> Option<bool> {
    let (orders, mut put, mut one, two) = Orders::new(alloc, 2).ok()?;
    let first = orders.put(rt, &mut put, DialOrder(4));
    let second = orders.put(rt, &mut put, DialOrder(5));
    let third = orders.put(rt, &mut put, DialOrder(6));
    let oldest = orders.take(rt, &mut one);
    let next = orders.take(rt, &mut one);
    let none = orders.take(rt, &mut one);
    let fourth = orders.put(rt, &mut put, DialOrder(7));
    let last = orders.take(rt, &mut one);
    let left = orders.settle(rt, put, one, two);
    let are_put = [first, second, third, fourth] == [Ok(()), Ok(()), Err(DialOrder(6)), Ok(())];
    let are_taken = [oldest, next, none, last]
        == [
            Some(DialOrder(4)),
            Some(DialOrder(5)),
            None,
            Some(DialOrder(7)),
        ];
    Some(are_put && are_taken && left == 0)
}

#[test]
fn two_seats_and_orders(rt: HostRuntime) {
    assert!(rt; is_closed(&rt, rt.alloc(), 4) == Some(true));
    assert!(rt; are_in_turn(&rt, rt.alloc()) == Some(true));
    let missing = refusal_without(&rt, rt.alloc(), false);
    assert!(rt; missing == Some(CloseError::MissingSeat));
    let absent = refusal_without(&rt, rt.alloc(), true);
    assert!(rt; absent == Some(CloseError::ReceiptAbsent));
}
