//! The handshake of a dialled end, after the connection is made.

use crate::fault::Fault;
use distribution::{
    AMPLE_TURNS, Awaited, Draws, EndId, Event, MemoryDesk, Node, Outcome, Reached, Reply, Stream,
    UpRecord, Why, handshake,
};
use std::alloc::Global;

/// What a dialled end receives, in order.
const RECEIVED: [Awaited; 3] = [Awaited::Status, Awaited::Challenge, Awaited::Ack];

/// The challenge of one connection. A dialled end sends just one.
#[derive(Drop)]
struct LinkChallenge(u32);

impl Draws for LinkChallenge {
    ghost use Rattle.std.specs.Prelude.{◌≡◌};

    ghost gives = { λ before number after. number ≡ before.0 };

    fn draw(&mut self) -> u32 {
        self.0
    }
}

// The message that was awaited when the connection failed: `handshake` has reported the loss, as the step after those of the frames. If
// the turns ran out it reported nothing, and the end is open. In any other case a message closed the end, which then awaits none.
fn awaited_message(desk: &MemoryDesk, end_: EndId) -> Option<Awaited> {
    match desk.list().split_last() {
        Some(((Event::Lost { .. }, _, _), frames)) => RECEIVED.get(frames.len()).copied(),
        _ => desk.node().awaits(end_),
    }
}

// The fault of a handshake with this outcome.
fn fault_of(desk: &MemoryDesk, end_: EndId, outcome: Outcome) -> Fault {
    let why = match outcome {
        Outcome::Closed(Why::NoMemory) => return Fault::NoMemory,
        Outcome::Closed(why) => why,
        Outcome::Limit => Why::GaveUp,
    };
    Fault::NotUp(why, awaited_message(desk, end_))
}

/// A step of our node that sends no challenge: only a frame makes it send one.
pub fn step(alloc: Global, node: &mut Node, event: &Event) -> Result<Reply, Fault> {
    Ok(node.step(alloc, event, 0)?)
}

/// Performs the handshake of a dialled end whose connection is made, until the stream falls quiet for good. Returns what is known of
/// the peer, and the bytes read after the last frame, which belong to packets.
pub fn shake_hands<S: Stream>(
    alloc: Global,
    stream: &mut S,
    node: Node,
    end_: EndId,
    challenge: u32,
) -> Result<(UpRecord, Vec<u8>), Fault> {
    let mut node = node;
    let opened = step(alloc, &mut node, &Event::Opened { end_, link: 0 })?;
    let mut desk = MemoryDesk::new(alloc, node, end_)?;
    let mut draws = LinkChallenge(challenge);
    let first = opened.say.as_slice();
    let reached = handshake(
        alloc,
        stream,
        &mut desk,
        &mut draws,
        end_,
        first,
        AMPLE_TURNS,
    );
    match reached {
        Reached::Up { record, rest } => Ok((record, rest)),
        Reached::Ended(outcome) => Err(fault_of(&desk, end_, outcome)),
    }
}
