//! Worlds: what two nodes agree on is the same from both sides, and a world stands when memory runs out.

use crate::setting::NODES;
use dist_names::{Creation, Flags};
use dist_script::{Script, script_of};
use dist_world::{Agreement, Happening, Stopped, World};
use std::alloc::Global;
use std::test::*;

// What happens to nodes 0, 1 and 2, which are a, b and c: crossing_dials, dialled_name_reached_other_node, restart_of_a_peer,
// stale_name_of_given_up_attempt, stale_crossing_name.
const WORLDS: &str = "\
begin 0 5, begin 1 6, dial 0 b@127.0.0.1 new, dial 1 a@127.0.0.1 new, reach 0 0 1, reach 1 0 0, opened 0 0, opened 1 0, accept 0, accept 1, \
    deliver 1 1 999, take 1 1 1, deliver 0 1 999, take 0 1 7, deliver 0 0 999, take 0 0 0, deliver 1 0 999, take 1 0 0, take 1 0 8, \
    deliver 0 1 999, take 0 1 0, deliver 1 0 999, take 1 0 0
begin 0 5, begin 1 6, begin 2 8, dial 0 b@127.0.0.1 new, reach 0 0 2, opened 0 0, accept 0, deliver 2 0 999, take 2 0 9, deliver 0 0 999, \
    take 0 0 0, take 0 0 0, deliver 0 0 999
begin 0 5, begin 1 4, dial 1 a@127.0.0.1 new, reach 1 0 0, opened 1 0, accept 0, deliver 0 0 999, take 0 0 11, deliver 1 0 999, take 1 0 0, \
    take 1 0 12, deliver 0 0 999, take 0 0 0, deliver 1 0 999, take 1 0 0, halt 1, begin 1 6, dial 1 a@127.0.0.1 new, reach 1 0 0, opened 1 0, \
    accept 1, deliver 0 1 999, take 0 1 0, deliver 1 0 999, take 1 0 0, deliver 0 1 999, take 0 1 13, deliver 1 0 999, take 1 0 14, \
    deliver 0 1 999, take 0 1 0, deliver 1 0 999, take 1 0 0
begin 0 5, begin 1 6, dial 0 b@127.0.0.1 new, reach 0 0 1, opened 0 0, lose 0 0 GaveUp, dial 0 b@127.0.0.1 new, reach 0 1 1, opened 0 1, \
    accept 1, deliver 1 0 999, take 1 0 11, deliver 0 1 999, take 0 1 0, take 0 1 12, deliver 1 0 999, take 1 0 0, deliver 0 1 999, take 0 1 0, \
    accept 0, deliver 1 1 999, take 1 1 0, lose 1 1 Ended
begin 0 5, begin 1 6, dial 1 a@127.0.0.1 new, reach 1 0 0, opened 1 0, lose 1 0 GaveUp, dial 0 b@127.0.0.1 new, reach 0 0 1, opened 0 0, \
    accept 1, deliver 1 1 999, take 1 1 11, deliver 0 0 999, take 0 0 0, take 0 0 12, accept 0, deliver 0 1 999, take 0 1 13, deliver 1 1 999, \
    take 1 1 0";

// The nodes, and a list of happenings. `None`, here and below: memory was refused to the test itself.
fn script(alloc: Global, text: &str) -> Option<Script> {
    let lines = text.replace(alloc, ", ", "\n").ok()?;
    let script = format!(in alloc; "{NODES}{lines}").ok()?;
    script_of(alloc, script.as_bytes()).ok()
}

// A world in which nothing has happened, and the list.
fn world_of(alloc: Global, text: &str) -> Option<(World, Vec<Happening>)> {
    match script(alloc, text)? {
        Script::Happenings { nodes, lines } => Some((World::new(alloc, nodes).ok()?, lines)),
        Script::Events { .. } => None,
    }
}

// Whether two nodes report the same of one another: the connection and the flags, and the creations the other way round.
fn is_symmetric(world: &World, a: usize, b: usize) -> bool {
    match (world.both_up(a, b), world.both_up(b, a)) {
        (Some(one), Some(other)) => {
            one.conn == other.conn
                && one.common == other.common
                && one.creation_a == other.creation_b
                && one.creation_b == other.creation_a
        }
        (None, None) => true,
        _ => false,
    }
}

fn are_symmetric(world: &World) -> bool {
    is_symmetric(world, 0, 1) && is_symmetric(world, 0, 2) && is_symmetric(world, 1, 2)
}

// Whether all pairs report so at the beginning, and after each happening.
fn stays_symmetric(alloc: Global, world: &mut World, list: &[Happening]) -> Option<bool> {
    let mut is_so = are_symmetric(world);
    for one in list.chunks(1) {
        let _ = world.run(alloc, one).ok()?;
        is_so = is_so && are_symmetric(world);
    }
    Some(is_so)
}

#[test]
fn agreement_is_symmetric(rt: HostRuntime) {
    for text in WORLDS.lines() {
        let Some((mut world, list)) = world_of(rt.alloc(), text) else {
            panic!(rt; "no world");
        };
        let is_so = stays_symmetric(rt.alloc(), &mut world, &list);
        assert!(rt; is_so == Some(true), "{text}");
    }
}

// Lets the list happen. If memory runs out before its end, also lets the rest happen.
fn run_to_end(alloc: Global, world: &mut World, list: &[Happening]) -> Option<usize> {
    match world.run(alloc, list) {
        Ok(applied) => Some(applied),
        Err(Stopped { done }) => world.run(alloc, list.get(done..)?).ok(),
    }
}

// Whether crossing_dials comes to its end, in one run or in two: both nodes are up with one another, by the connection of the lesser
// name's attempt.
fn a_crossing_stands(alloc: Global) -> Option<bool> {
    let (mut world, list) = world_of(alloc, WORLDS.lines().next()?)?;
    let applied = run_to_end(alloc, &mut world, &list);
    let agreed = Agreement {
        conn: 1,
        common: Flags(0x1000004),
        creation_a: Some(Creation(5)),
        creation_b: Some(Creation(6)),
    };
    Some(applied.is_some() && world.both_up(0, 1) == Some(agreed))
}

// Only one request is refused, so it is tried twice.
#[test]
fn a_world_stands_after_what_was_done_whatever_request_for_memory_is_refused(rt: HostRuntime) {
    let stands = match a_crossing_stands(rt.alloc()) {
        None => a_crossing_stands(rt.alloc()),
        noted => noted,
    };
    assert!(rt; stands == Some(true));
}
