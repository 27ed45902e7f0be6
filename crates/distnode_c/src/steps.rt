//! The steps of a node: its connections come, are dialled, open or lost, a tick is due, bytes came.
ghost use Rattle.std.specs.{Prelude.◌≢◌, Prelude.Some, Prelude.None, Prelude.IsTrue, Int.w16};
ghost use Rattle.dist_names.specs.NodeName.{name_of_bytes};
ghost use Rattle.dist_c_guest.specs.Steps.{IfHeld, Loses, Steps, Takes, opening_of};
ghost use Rattle.dist_c_guest.specs.{Bodies.GuardsBody, Bodies.TakesBody, Bodies.is_short, Newcomers.Comes, Newcomers.Dials};
ghost use Rattle.dist_core.specs.Losses.{is_loss};
ghost use Rattle.dist_frames.specs.Stream.{first_body};

use dist_c_guest::{
    DnNode, DnReply, MARK, NO_SUCH, NOT_A_NODE, guard_body, name_code, opening_of, report_room,
    step_guest, step_newcomer, take_body, take_front, why_of,
};
use dist_core::Event;
use dist_names::NodeName;
use dist_peers::EndId;
use std::alloc::Global;

fn take_newcomer(node: &mut DnNode, alloc: Global, event: &Event, reply: &mut DnReply) -> u32
    ensures { Comes event.now result node.old.slot.guest node.new.slot.guest reply.old reply.new }
{
    if node.mark != MARK {
        report_room(None, reply);
        return NOT_A_NODE;
    }
    step_newcomer(node.slot.lend(), alloc, event, reply)
}

/// A connection came.
#[unsafe(no_mangle)]
pub extern "C" fn dn_node_incoming(node: &mut DnNode, alloc: Global, reply: &mut DnReply) -> u32
    ensures { Comes (Event.Incoming 0) result node.old.slot.guest node.new.slot.guest reply.old reply.new }
{
    take_newcomer(node, alloc, &Event::Incoming { link: 0 }, reply)
}

/// The node is to connect to this peer: a new end is given out. The opening is 0 for the old form of name, else the new.
#[unsafe(no_mangle)]
pub extern "C" fn dn_node_dial(
    node: &mut DnNode,
    alloc: Global,
    peer: &[u8],
    opening: u32,
    reply: &mut DnReply,
) -> u32
    ensures { Dials (name_of_bytes peer.now) (opening_of opening) result node.old.slot.guest node.new.slot.guest reply.old reply.new }
{
    match NodeName::new(alloc, peer) {
        Ok(peer) => {
            let opening = opening_of(opening);
            take_newcomer(node, alloc, &Event::Dial { peer, opening }, reply)
        }
        Err(error) => {
            report_room(None, reply);
            name_code(error)
        }
    }
}

// Makes a step at the guest of a node.
fn make_step(
    node: &mut DnNode,
    alloc: Global,
    event: &Event,
    fresh: u32,
    reply: &mut DnReply,
) -> u32
    ensures step { Steps event.now fresh result node.old.slot.guest node.new.slot.guest reply.old reply.new }
    ensures loss { IsTrue (is_loss event.now) → result ≢ 3 }
{
    if node.mark != MARK {
        return NOT_A_NODE;
    }
    step_guest(node.slot.lend(), alloc, event, fresh, reply)
}

/// The connection of a dialled end is there.
#[unsafe(no_mangle)]
pub extern "C" fn dn_node_opened(
    node: &mut DnNode,
    alloc: Global,
    id: u32,
    reply: &mut DnReply,
) -> u32
    ensures { Steps (Event.Opened (record { 0 = id }) 0) 0 result node.old.slot.guest node.new.slot.guest reply.old reply.new }
{
    let event = Event::Opened {
        end_: EndId(id),
        link: 0,
    };
    make_step(node, alloc, &event, 0, reply)
}

/// The connection of an end is lost or given up, for this cause.
#[unsafe(no_mangle)]
pub extern "C" fn dn_node_lost(
    node: &mut DnNode,
    alloc: Global,
    id: u32,
    why: u32,
    reply: &mut DnReply,
) -> u32
    ensures step { Loses (record { 0 = id }) why result node.old.slot.guest node.new.slot.guest reply.old reply.new }
    ensures memory { result ≢ 3 }
{
    match why_of(why) {
        Some(why) => {
            let event = Event::Lost {
                end_: EndId(id),
                why,
            };
            make_step(node, alloc, &event, 0, reply)
        }
        None => NO_SUCH,
    }
}

/// A tick is due on an end.
#[unsafe(no_mangle)]
pub extern "C" fn dn_node_tick(
    node: &mut DnNode,
    alloc: Global,
    id: u32,
    reply: &mut DnReply,
) -> u32
    ensures { Steps (Event.Tick (record { 0 = id })) 0 result node.old.slot.guest node.new.slot.guest reply.old reply.new }
{
    make_step(node, alloc, &Event::Tick { end_: EndId(id) }, 0, reply)
}

/// Bytes came on an end: makes the step of the first frame, or returns `AWAITS` and keeps none of them if it is not whole yet.
#[unsafe(no_mangle)]
pub extern "C" fn dn_node_received(
    node: &mut DnNode,
    alloc: Global,
    id: u32,
    bytes: &[u8],
    challenge: u32,
    reply: &mut DnReply,
) -> u32
    ensures { IfHeld node.old.slot.guest
        (λ s. Takes (first_body w16 bytes.now) (record { 0 = id }) challenge result s node.new.slot.guest reply.old reply.new)
        result node.old.slot.guest node.new.slot.guest reply.old reply.new }
{
    if node.mark != MARK {
        return NOT_A_NODE;
    }
    take_front(node.slot.lend(), alloc, EndId(id), bytes, challenge, reply)
}

/// The body of a frame came on an end, without its length.
#[unsafe(no_mangle)]
pub extern "C" fn dn_node_body(
    node: &mut DnNode,
    alloc: Global,
    id: u32,
    body: &[u8],
    challenge: u32,
    reply: &mut DnReply,
) -> u32
    ensures { IfHeld node.old.slot.guest
        (λ s. TakesBody (is_short body.now) body.now (record { 0 = id }) challenge result s node.new.slot.guest reply.old reply.new)
        result node.old.slot.guest node.new.slot.guest reply.old reply.new }
{
    if node.mark != MARK {
        return NOT_A_NODE;
    }
    take_body(node.slot.lend(), alloc, EndId(id), body, challenge, reply)
}

/// The body of a frame came on an end, and no end that is up may be closed by it.
#[unsafe(no_mangle)]
pub extern "C" fn dn_node_guarded_body(
    node: &mut DnNode,
    alloc: Global,
    id: u32,
    body: &[u8],
    challenge: u32,
    reply: &mut DnReply,
) -> u32
    ensures { IfHeld node.old.slot.guest
        (λ s. GuardsBody (is_short body.now) body.now (record { 0 = id }) challenge result s node.new.slot.guest reply.old reply.new)
        result node.old.slot.guest node.new.slot.guest reply.old reply.new }
{
    if node.mark != MARK {
        return NOT_A_NODE;
    }
    guard_body(node.slot.lend(), alloc, EndId(id), body, challenge, reply)
}
