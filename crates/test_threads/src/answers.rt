//! What a node answers before a step, compared with the step itself; a node whose steps are used up; and the opening for a peer's
//! version.

use crate::setting::{CHALLENGE, event, node_after, setup_of};
use dist_core::{Event, Node, Opening, Reply, Setup, StepError, Why};
use dist_drive::opening_for;
use dist_epmd::PortInfo;
use dist_peers::EndId;
use std::alloc::Global;
use std::test::*;

// A node, and its events: accepted_handshake; wrong_digest, at an end that comes up and at one with a challenge; dialled_handshake.
const SCRIPTS: [(&str, &str); 4] = [
    ("b", "incoming name reply"),
    ("b", "incoming name wrong_reply reply"),
    (
        "b",
        "incoming name reply incoming 1:name 1:true 1:wrong_reply",
    ),
    ("a", "dial opened ok challenge acknowledgement tick dial"),
];

fn is_same(one: &Result<Reply, StepError>, other: &Result<Reply, StepError>) -> bool {
    match (one, other) {
        (Ok(one), Ok(other)) => one.is_same(other),
        (Err(one), Err(other)) => one == other,
        _ => false,
    }
}

// Whether the answer before a step equals the step.
fn is_foretold(alloc: Global, node: &mut Node, event: &Event) -> bool {
    let answer = node.answer(alloc, event, CHALLENGE);
    let reply = node.step(alloc, event, CHALLENGE);
    is_same(&answer, &reply)
}

// Whether that is so of each word of a script, and a copy of the word's event equals it.
fn are_foretold(alloc: Global, letter: &str, words: &str) -> Option<bool> {
    let mut node = Node::new(alloc, setup_of(alloc, letter)?);
    for word in words.split(' ') {
        let event = event(alloc, word)?;
        let copy = event.try_clone(alloc).ok()?;
        if !copy.is_same(&event) || !is_foretold(alloc, &mut node, &event) {
            return Some(false);
        }
    }
    Some(true)
}

fn is_same_setup(one: &Setup, other: &Setup) -> bool {
    one.name.is_same(&other.name)
        && one.cookies.is_same(&other.cookies)
        && one.version == other.version
        && one.flags == other.flags
        && one.required == other.required
        && one.creation == other.creation
        && one.allow.is_none()
        && other.allow.is_none()
        && one.limits == other.limits
}

// Whether a copy of the setup of node b, which lets all nodes connect, equals it.
fn is_copied(alloc: Global) -> Option<bool> {
    let setup = setup_of(alloc, "b")?;
    let copy = setup.try_clone(alloc).ok()?;
    Some(is_same_setup(&copy, &setup))
}

#[test]
fn answer_before_step(rt: HostRuntime) {
    for (letter, words) in SCRIPTS {
        let are_foretold = are_foretold(rt.alloc(), letter, words);
        assert!(rt; are_foretold == Some(true), "{letter} {words}");
    }
    assert!(rt; is_copied(rt.alloc()) == Some(true));
}

// How many of so many ticks a node accepts at end 0.
fn count_accepted(node: &mut Node, ticks: u32) -> u32 {
    let mut accepted = 0u32;
    for _ in 0..ticks {
        accepted = accepted.saturating_add(node.tick(EndId(0)).is_ok() as u32);
    }
    accepted
}

// Node b takes three steps before.
#[test]
fn steps_spent(rt: HostRuntime) {
    let Some(mut node) = node_after(rt.alloc(), "b", "incoming name reply") else {
        panic!(rt; "no memory");
    };
    assert_eq!(rt; count_accepted(&mut node, 1_048_573), 1_048_573);
    assert!(rt; node.tick(EndId(0)) == Err(StepError::Spent));
    assert!(rt; node.lose(EndId(0), Why::Ended) == Ok(()));
    assert!(rt; node.accept() == Err(StepError::Spent));
}

// A peer whose highest version is 5 is dialled as of old.
#[test]
fn opening_by_version(rt: HostRuntime) {
    let Ok(mut peer) = PortInfo::of_node(rt.alloc(), b"a", 9001, false) else {
        panic!(rt; "no memory");
    };
    for highest in 5..8u16 {
        peer.highest = highest;
        let is_old = opening_for(&peer) == Opening::Old;
        assert_eq!(rt; is_old, highest == 5, "{highest}");
    }
}
