//! What the tests share: three nodes, what a and b send in a handshake, the events, and a source of challenges.

use dist_core::{Event, Node, Opening, Setup, Why};
use dist_drive::Draws;
use dist_names::{ByteString, NodeName};
use dist_peers::EndId;
use dist_script::{Script, script_of};
use std::alloc::Global;

/// The challenge of node b.
pub const CHALLENGE: u32 = 123456789;

/// Nodes a, b and c. Node a limits which nodes may connect, so that its list of names is copied where a setup is.
pub const NODES: &str = "\
node a@127.0.0.1 ABCDEFGHIJKLMNOPQRSTUVWXYZabcdefghijklmnopqrstuvwxyz0 401000004 5 allow b@127.0.0.1
node b@127.0.0.1 ABCDEFGHIJKLMNOPQRSTUVWXYZabcdefghijklmnopqrstuvwxyz0 101000104 6
node c@127.0.0.1 ABCDEFGHIJKLMNOPQRSTUVWXYZabcdefghijklmnopqrstuvwxyz0 101000104 8
";

/// The letters of the nodes that have a seat, in their order.
pub const LETTERS: &str = "ab";

// Node a sends its name, a reply to the challenge 123456789, one with a wrong bit, and the status `true`; node b sends the other statuses,
// this challenge and its acknowledgement; then comes a packet of 5 bytes behind a tick. The old name is that of a node that only knows
// version 5, written by hand from the ERTS User's Guide, Distribution Handshake: a tag, the version 5, the flags 4 in four bytes, the name.
const FRAMES: [(&str, &[u8]); 10] = [
    (
        "name",
        b"\x00\x1aN\x00\x00\x00\x04\x01\x00\x00\x04\x00\x00\x00\x05\x00\x0ba@127.0.0.1",
    ),
    ("old_name", b"\x00\x12n\x00\x05\x00\x00\x00\x04a@127.0.0.1"),
    (
        "reply",
        b"\x00\x15r\x07\x5b\xcd\x15\xd1\x74\xab\x98\xd2\x77\xd9\xf5\xa5\x61\x1c\x2c\x9f\x41\x9d\x9f",
    ),
    (
        "wrong_reply",
        b"\x00\x15r\x07\x5b\xcd\x15\xd1\x74\xab\x98\xd2\x77\xd9\xf5\xa5\x61\x1c\x2c\x9f\x41\x9d\x9e",
    ),
    ("true", b"\x00\x05strue"),
    ("ok", b"\x00\x03sok"),
    ("nok", b"\x00\x04snok"),
    (
        "challenge",
        b"\x00\x1eN\x00\x00\x00\x01\x01\x00\x01\x04\x07\x5b\xcd\x15\x00\x00\x00\x06\x00\x0bb@127.0.0.1",
    ),
    (
        "acknowledgement",
        b"\x00\x11a\xd1\x74\xab\x98\xd2\x77\xd9\xf5\xa5\x61\x1c\x2c\x9f\x41\x9d\x9f",
    ),
    (
        "packets",
        b"\x00\x00\x00\x00\x00\x00\x00\x05\x01\x02\x03\x04\x05",
    ),
];

/// This number, then the next one, and so on.
#[derive(Drop)]
pub struct Rising(pub u32);

impl Draws for Rising {
    ghost gives = { λ before number after. Unit {0} };

    fn draw(&mut self) -> u32 {
        let number = self.0;
        self.0 = number.wrapping_add(1);
        number
    }
}

/// The setup of the node with this letter. `None`, here and below: memory was refused.
pub fn setup_of(alloc: Global, letter: &str) -> Option<Setup> {
    let line = NODES.lines().nth(LETTERS.find(letter)?)?;
    match script_of(alloc, line.as_bytes()).ok()? {
        Script::Events { node, .. } => Some(node),
        Script::Happenings { .. } => None,
    }
}

// The frame of this name; no bytes for any other word.
fn frame(word: &str) -> &'static [u8] {
    for (name, bytes) in FRAMES.iter() {
        if *name == word {
            return bytes;
        }
    }
    b""
}

/// The bytes of frames joined by `+`; `-` is no byte.
pub fn bytes_of(alloc: Global, words: &str) -> Option<Vec<u8>> {
    let mut bytes = Vec::new(alloc);
    for word in words.split('+') {
        bytes.extend_from_slice(frame(word)).ok()?;
    }
    Some(bytes)
}

/// The event for a word: a frame; `dial` of node b; or what `short_event` says. It is for end 0, or behind `1:` for end 1.
pub fn event(alloc: Global, word: &str) -> Option<Event> {
    let (end_, word) = match word.strip_prefix("1:") {
        Some(word) => (EndId(1), word),
        None => (EndId(0), word),
    };
    if word == "dial" {
        let peer = NodeName::new(alloc, b"b@127.0.0.1").ok()?;
        let opening = Opening::New;
        return Some(Event::Dial { peer, opening });
    }
    let Some(body) = frame(word).get(2..) else {
        return Some(short_event(end_, word));
    };
    let body = ByteString::from_slice(alloc, body).ok()?;
    Some(Event::Frame { end_, body })
}

// An event that takes no memory: the end is `opened`, or is `replaced` or has `ended`; a tick is due; for any other word, a connection has
// come.
fn short_event(end_: EndId, word: &str) -> Event {
    match word {
        "opened" => Event::Opened { end_, link: 1 },
        "tick" => Event::Tick { end_ },
        "ended" => Event::Lost {
            end_,
            why: Why::Ended,
        },
        "replaced" => Event::Lost {
            end_,
            why: Why::Replaced,
        },
        _ => Event::Incoming { link: 1 },
    }
}

/// The node of this letter after the events for these words. `None`: it refused one, or memory was refused.
pub fn node_after(alloc: Global, letter: &str, words: &str) -> Option<Node> {
    let mut node = Node::new(alloc, setup_of(alloc, letter)?);
    for word in words.split(' ') {
        let event = event(alloc, word)?;
        node.step(alloc, &event, CHALLENGE).ok()?;
    }
    Some(node)
}

/// The word at this place of a row.
pub fn word(row: &str, place: usize) -> &str {
    row.split(' ').nth(place).unwrap_or("")
}

/// The number that a word is, or else `other`.
pub fn number(word: &str, other: u64) -> u64 {
    word.parse::<u64>().unwrap_or(other)
}
