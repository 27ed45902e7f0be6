//! What a node is asked. No question changes it.
ghost use Rattle.std.specs.{Prelude.◌≡◌, Prelude.slice_get, Int.w16};
ghost use Rattle.std.specs.FinMap as map;
ghost use Rattle.dist_names.specs.NodeName.{name_of_bytes};
ghost use Rattle.dist_frames.specs.Stream.{bodies, first_body};
ghost use Rattle.dist_core_ends.specs.Ends.{oldest_pending, record_in, table_of, up_from, up_ids};
ghost use Rattle.dist_c_guest.specs.{Bodies.CopiesAt, Bodies.ForeseesBody, Bodies.ForeseesFront, Bodies.is_short, Ends.ReportsEnd, Ends.ReportsId};
ghost use Rattle.dist_c_guest.specs.{Entries.ReportsEntry, Nodes.ReportsNext, Nodes.Returns, Statuses.ReportsStatuses, Statuses.status_number};
ghost use Rattle.dist_c_guest.specs.Steps.{Copies, IfHeld, sent_bytes};

use dist_c_guest::{
    DnEnd, DnEntry, DnNode, DnPeer, DnReply, MARK, NOT_A_NODE, OK, copy_body, copy_out,
    foresee_body, foresee_front, newest_status, report_end, report_entry, report_found,
    report_next, report_oldest, report_peer, sent_bytes, status_number,
};
use dist_peers::EndId;
use std::alloc::Global;

/// Copies the bytes that the newest step sends.
#[unsafe(no_mangle)]
pub extern "C" fn dn_node_say(node: &mut DnNode, room: &mut [u8], len: &mut usize) -> u32
    ensures says { IfHeld node.old.slot.guest (λ s. Copies (sent_bytes s.last) result len.new room.old room.new) result len.old len.new room.old room.new }
    ensures same { node.new.slot.guest ≡ node.old.slot.guest }
{
    if node.mark != MARK {
        return NOT_A_NODE;
    }
    copy_out(sent_bytes(node.slot.lend()), room, len)
}

/// The up peer at this place, in the order of names, with its name.
#[unsafe(no_mangle)]
pub extern "C" fn dn_node_peer_at(
    node: &mut DnNode,
    place: usize,
    peer: &mut DnPeer,
    room: &mut [u8],
) -> u32
    ensures reports { IfHeld node.old.slot.guest
        (λ s. Returns (up_from s.node.ends (slice_get (up_ids (map.entries (table_of s.node.ends))) place)) result peer.old peer.new room.old room.new)
        result peer.old peer.new room.old room.new }
    ensures same { node.new.slot.guest ≡ node.old.slot.guest }
{
    if node.mark != MARK {
        return NOT_A_NODE;
    }
    let guest = node.slot.lend();
    report_found(guest.node.up_at(place), room, peer)
}

/// The up peer that comes next behind this name, in the order of names, with its name; the first of all where there are no bytes.
#[unsafe(no_mangle)]
pub extern "C" fn dn_node_next_peer(
    node: &mut DnNode,
    alloc: Global,
    name: &[u8],
    peer: &mut DnPeer,
    room: &mut [u8],
) -> u32
    ensures reports { IfHeld node.old.slot.guest
        (λ s. ReportsNext name.now result s peer.old peer.new room.old room.new) result peer.old peer.new room.old room.new }
    ensures same { node.new.slot.guest ≡ node.old.slot.guest }
{
    if node.mark != MARK {
        return NOT_A_NODE;
    }
    report_next(node.slot.lend(), alloc, name, peer, room)
}

/// The peer that is up on this end, with its name.
#[unsafe(no_mangle)]
pub extern "C" fn dn_node_peer_of(
    node: &mut DnNode,
    id: u32,
    peer: &mut DnPeer,
    room: &mut [u8],
) -> u32
    ensures reports { IfHeld node.old.slot.guest
        (λ s. Returns (record_in (record { 0 = id }) (slice_get s.node.ends id)) result peer.old peer.new room.old room.new)
        result peer.old peer.new room.old room.new }
    ensures same { node.new.slot.guest ≡ node.old.slot.guest }
{
    if node.mark != MARK {
        return NOT_A_NODE;
    }
    report_peer(node.slot.lend(), id, peer, room)
}

/// Copies the body at a place of what the newest step sends, without its length.
#[unsafe(no_mangle)]
pub extern "C" fn dn_node_say_body(
    node: &mut DnNode,
    place: usize,
    room: &mut [u8],
    len: &mut usize,
) -> u32
    ensures says { IfHeld node.old.slot.guest
        (λ s. CopiesAt (slice_get (bodies (sent_bytes s.last)) place) result len.old len.new room.old room.new)
        result len.old len.new room.old room.new }
    ensures same { node.new.slot.guest ≡ node.old.slot.guest }
{
    if node.mark != MARK {
        return NOT_A_NODE;
    }
    copy_body(node.slot.lend(), place, room, len)
}

/// The status that the newest step sent, and the one that it received.
#[unsafe(no_mangle)]
pub extern "C" fn dn_node_status(
    node: &mut DnNode,
    alloc: Global,
    said: &mut u32,
    heard: &mut u32,
) -> u32
    ensures reports { IfHeld node.old.slot.guest (λ s. ReportsStatuses s result said.new heard.new) result said.old said.new heard.old heard.new }
    ensures same { node.new.slot.guest ≡ node.old.slot.guest }
{
    if node.mark != MARK {
        return NOT_A_NODE;
    }
    let guest = node.slot.lend();
    *said = status_number(newest_status(guest, alloc));
    *heard = status_number(guest.received_status);
    OK
}

/// What `dn_node_received` would return for these bytes and this challenge.
#[unsafe(no_mangle)]
pub extern "C" fn dn_node_ready(
    node: &mut DnNode,
    alloc: Global,
    id: u32,
    bytes: &[u8],
    challenge: u32,
    reply: &mut DnReply,
) -> u32
    ensures ready { IfHeld node.old.slot.guest
        (λ s. ForeseesFront (first_body w16 bytes.now) (record { 0 = id }) challenge result s reply.old reply.new)
        result node.old.slot.guest node.new.slot.guest reply.old reply.new }
    ensures same { node.new.slot.guest ≡ node.old.slot.guest }
{
    if node.mark != MARK {
        return NOT_A_NODE;
    }
    foresee_front(node.slot.lend(), alloc, EndId(id), bytes, challenge, reply)
}

/// What `dn_node_body` would return for this body and this challenge.
#[unsafe(no_mangle)]
pub extern "C" fn dn_node_ready_body(
    node: &mut DnNode,
    alloc: Global,
    id: u32,
    body: &[u8],
    challenge: u32,
    reply: &mut DnReply,
) -> u32
    ensures ready { IfHeld node.old.slot.guest
        (λ s. ForeseesBody (is_short body.now) body.now (record { 0 = id }) challenge result s reply.old reply.new)
        result node.old.slot.guest node.new.slot.guest reply.old reply.new }
    ensures same { node.new.slot.guest ≡ node.old.slot.guest }
{
    if node.mark != MARK {
        return NOT_A_NODE;
    }
    foresee_body(node.slot.lend(), alloc, EndId(id), body, challenge, reply)
}

/// The entry of a peer.
#[unsafe(no_mangle)]
pub extern "C" fn dn_node_entry(
    node: &mut DnNode,
    alloc: Global,
    peer: &[u8],
    entry: &mut DnEntry,
) -> u32
    ensures reports { IfHeld node.old.slot.guest
        (λ s. ReportsEntry (name_of_bytes peer.now) result s entry.old entry.new)
        result node.old.slot.guest node.new.slot.guest entry.old entry.new }
    ensures same { node.new.slot.guest ≡ node.old.slot.guest }
{
    if node.mark != MARK {
        return NOT_A_NODE;
    }
    report_entry(node.slot.lend(), alloc, peer, entry)
}

/// How an end stands, and the name of its peer.
#[unsafe(no_mangle)]
pub extern "C" fn dn_node_end(node: &mut DnNode, id: u32, end: &mut DnEnd, room: &mut [u8]) -> u32
    ensures reports { IfHeld node.old.slot.guest
        (λ s. ReportsEnd (slice_get s.node.ends id) result end.old end.new room.old room.new) result end.old end.new room.old room.new }
    ensures same { node.new.slot.guest ≡ node.old.slot.guest }
{
    if node.mark != MARK {
        return NOT_A_NODE;
    }
    report_end(node.slot.lend(), id, end, room)
}

/// The end that has been open and not up for the longest.
#[unsafe(no_mangle)]
pub extern "C" fn dn_node_oldest(node: &mut DnNode, id: &mut u32) -> u32
    ensures reports { IfHeld node.old.slot.guest
        (λ s. ReportsId (oldest_pending s.node.ends) result id.old id.new)
        result node.old.slot.guest node.new.slot.guest id.old id.new }
    ensures same { node.new.slot.guest ≡ node.old.slot.guest }
{
    if node.mark != MARK {
        return NOT_A_NODE;
    }
    report_oldest(node.slot.lend(), id)
}
