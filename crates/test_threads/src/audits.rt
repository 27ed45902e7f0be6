//! Histories of two nodes under locks, and the result of their audit, unchanged and with one change.

use crate::seats::{close_side, sides_after};
use crate::setting::{number, word};
use dist_audit::{audit, audit_among_others};
use dist_core::Event;
use dist_locked::{Closed, Line, SharedLine};
use dist_names::{ByteString, Creation, Flags};
use dist_world::Agreement;
use std::alloc::Global;
use std::sync::Wait;
use std::test::*;

// One handshake: the node of each step, and its event. Tickets of a: 0 dial, 1 opened, 4, 5, 7 frames. Of b: 2 incoming, 3, 6 frames.
const HANDSHAKE: &str =
    "a dial, a opened, b incoming, b name, a ok, a challenge, b reply, a acknowledgement";

// Nodes a and b, closed after these steps. `None`: memory was refused, or a step.
fn histories(rt: &impl Wait, alloc: Global, steps: &str) -> Option<Vec<Closed>> {
    let mut all = Vec::new(alloc);
    for side in sides_after(rt, alloc, steps)? {
        all.push(close_side(side)?).ok()?;
    }
    Some(all)
}

// The result of the audit: the name of the refusal, or whether nodes 0 and 1 agree on connection 0, with the flags and the creations of
// these setups.
fn answer(alloc: Global, all: &[Closed]) -> &'static str {
    let world = match audit(alloc, all) {
        Ok(world) => world,
        Err(error) => return error.name(),
    };
    let agreed = Agreement {
        conn: 0,
        common: Flags(0x1000004),
        creation_a: Some(Creation(5)),
        creation_b: Some(Creation(6)),
    };
    match world.both_up(0, 1) {
        Some(found) if found == agreed => "agreed",
        Some(_) => "agreed otherwise",
        None => "not agreed",
    }
}

// The result of the audit as others took part: the name of the refusal; or with how many others there was a connection, and which of
// nodes 0 and 1 takes one of them for the other.
fn answer_among(alloc: Global, all: &[Closed]) -> &'static str {
    let found = match audit_among_others(alloc, all) {
        Ok(found) => found,
        Err(error) => return error.name(),
    };
    match (
        found.strangers,
        found.world.is_fooled(0, 1),
        found.world.is_fooled(1, 0),
    ) {
        (0, false, false) => "none",
        (1, false, false) => "one",
        (1, true, false) => "one fools a",
        (1, false, true) => "one fools b",
        (2, false, false) => "two",
        (2, true, true) => "two fool both",
        (3, true, true) => "three fool both",
        _ => "otherwise",
    }
}

// Changes the first byte. The same change once more undoes it.
fn flip(alloc: Global, text: &mut ByteString) -> Option<()> {
    let mut bytes = Vec::from_slice(alloc, text.as_slice()).ok()?;
    *bytes.first_mut()? ^= 1;
    *text = ByteString::from_vec(bytes);
    Some(())
}

// Changes the link of a connection that came, the body of a frame, or what was sent; or else sets the ticket.
fn alter(alloc: Global, line: &mut Line, what: &str) -> Option<()> {
    match (what, &mut line.event) {
        ("link", Event::Incoming { link }) => *link ^= 1024,
        ("body", Event::Frame { body, .. }) => return flip(alloc, body),
        ("say", _) => return flip(alloc, &mut line.reply.say),
        (ticket, _) => line.ticket = ticket.parse::<u64>().ok()?,
    }
    Some(())
}

// Replaces a line of a history by a changed copy.
fn put_altered(alloc: Global, shared: &mut SharedLine, what: &str) -> Option<()> {
    let mut line = shared.read().line().try_clone(alloc).ok()?;
    alter(alloc, &mut line, what)?;
    *shared = SharedLine::new(alloc, line).ok()?;
    Some(())
}

// Changes a line of a history, `NODE LINE WHAT`, or removes the last line, `NODE LINE out`.
fn alter_row(alloc: Global, all: &mut [Closed], row: &str) -> Option<()> {
    let history = &mut all.get_mut(number(word(row, 0), 9) as usize)?.history;
    if row.ends_with("out") {
        let _ = history.pop();
        return Some(());
    }
    let line = history.get_mut(number(word(row, 1), 9) as usize)?;
    put_altered(alloc, line, word(row, 2))
}

// Whether the audit has the result that a part names, `? RESULT`, or `among RESULT` as others took part; or else changes a line.
fn is_so(alloc: Global, all: &mut [Closed], part: &str) -> bool {
    if let Some(wanted) = part.strip_prefix("among ") {
        return answer_among(alloc, all) == wanted;
    }
    match part.strip_prefix("? ") {
        Some(wanted) => answer(alloc, all) == wanted,
        None => alter_row(alloc, all, part).is_some(),
    }
}

// As others took part, the same but for a link that one node alone knows: then each has a connection with somebody else.
//
// A ticket of the other node; two tickets exchanged; the link of the connection that came, a byte of a frame's body, and a byte of what
// was sent last, each undone. Then each ticket doubled plus one (shifted_tickets), that of the connection that came one below that of
// `opened`, and one below that of the dial. Then the original tickets, without the last line.
const ALTERED: &str = "\
    ? agreed, among none, 0 2 3, ? TicketTwice, among TicketTwice, 0 2 5, 0 3 4, ? TicketFalls, among TicketFalls, 0 2 4, 0 3 5, ? agreed, \
    1 0 link, ? Unpaired, among two fool both, 1 0 link, 1 1 body, ? NotSent, among NotSent, 1 1 body, \
    1 2 say, ? OtherReply, among OtherReply, 1 2 say, ? agreed, \
    0 4 15, 0 3 11, 0 2 9, 0 1 3, 0 0 1, 1 2 13, 1 1 7, 1 0 5, ? agreed, 1 0 2, ? agreed, 1 0 0, ? OtherReply, among OtherReply, \
    1 0 5, 0 4 out, ? OtherReply, among OtherReply";

#[test]
fn audited_handshake(rt: HostRuntime) {
    let Some(mut all) = histories(&rt, rt.alloc(), HANDSHAKE) else {
        panic!(rt; "no history");
    };
    for part in ALTERED.split(", ") {
        assert!(rt; is_so(rt.alloc(), &mut all, part), "{part}");
    }
}

// The result of the audit of these histories, or of node b's alone.
fn audit_answer(
    rt: &impl Wait,
    alloc: Global,
    steps: &str,
    is_b_alone: bool,
) -> Option<&'static str> {
    let all = histories(rt, alloc, steps)?;
    Some(answer(alloc, all.get(usize::from(is_b_alone)..)?))
}

// No node; a connection that no node dialled; two dials of a node.
#[test]
fn small_audits(rt: HostRuntime) {
    assert_eq!(rt; answer(rt.alloc(), &[]), "not agreed");
    let alone = audit_answer(&rt, rt.alloc(), "b incoming", true);
    assert_eq!(rt; alone, Some("Unpaired"));
    let dialled = audit_answer(&rt, rt.alloc(), "a dial, a ended, a dial", false);
    assert_eq!(rt; dialled, Some("not agreed"));
}

// The steps of nodes a and b, what the audit finds without others, and what as others took part: both come up with one another; with
// somebody whom b or a takes for the other; somebody comes and says nothing, or is reached; comes twice by one pair of ports, or by that
// of their own connection.
const AMONG: &str = "\
a dial, a opened, b incoming, b name, a ok, a challenge, b reply, a acknowledgement => agreed, none
b incoming, b name, b reply => Unpaired, one fools b
a dial, a opened, a ok, a challenge, a acknowledgement => NotSent, one fools a
b incoming => Unpaired, one
a dial, a opened => not agreed, one
b incoming, b ended, b incoming => Unpaired, two
a dial, a opened, b incoming, b name, a ok, a challenge, b reply, a acknowledgement, b incoming => Unpaired, three fool both";

#[test]
fn audits_among_others(rt: HostRuntime) {
    for row in AMONG.lines() {
        let (steps, wanted) = row.split_once(" => ").unwrap_or((row, ""));
        let Some(all) = histories(&rt, rt.alloc(), steps) else {
            panic!(rt; "no history");
        };
        let (alone, among) = wanted.split_once(", ").unwrap_or((wanted, ""));
        assert!(rt; answer(rt.alloc(), &all) == alone, "{row}");
        assert!(rt; answer_among(rt.alloc(), &all) == among, "{row}");
    }
}

// The result of the audit of node b's history as others took part, of whom one has come up under the name of node a, which is then no node
// of the file.
#[test]
fn a_stranger_under_a_name_of_its_own(rt: HostRuntime) {
    let Some(all) = histories(&rt, rt.alloc(), "b incoming, b name, b reply") else {
        panic!(rt; "no history");
    };
    assert_eq!(rt;
        answer_among(rt.alloc(), all.get(1..).unwrap_or(&[])),
        "one"
    );
}

// Whether an audit finds that both agree, or runs out of memory and then finds it on the next try.
fn is_agreed(rt: &impl Wait, alloc: Global) -> Option<bool> {
    let all = histories(rt, alloc, HANDSHAKE)?;
    let noted = answer(alloc, &all);
    Some(noted == "agreed" || noted == "NoMemory" && answer(alloc, &all) == "agreed")
}

// Each request for memory is refused in turn. If one is refused before the audit, the test is repeated; else the audit reports it,
// unless a vector that grows can do with less.
#[test]
fn audit_memory_refused(rt: HostRuntime) {
    let noted = match is_agreed(&rt, rt.alloc()) {
        None => is_agreed(&rt, rt.alloc()),
        noted => noted,
    };
    assert!(rt; noted == Some(true));
}
