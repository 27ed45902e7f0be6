//! What a side says of itself.

ghost use Rattle.std.specs.Prelude.{◌≡◌, Some, option_map};
ghost use Rattle.dist_talk.specs.Described.{completed, description_in, description_of, first_description, view_of};
ghost use Rattle.dist_talk.specs.Opened.{complement_behind};

use crate::handshake::{Handshake, SentContent, SentMessage};
use crate::opened::complement_behind;
use dist_messages::{Message, Side};
use dist_names::{Creation, Flags};

/// What a side says of itself.
#[derive(Clone, Copy)]
pub struct NodeDescription<'a> {
    /// Its name, which may be any bytes.
    pub name: &'a [u8],
    /// Its flags; behind an older name, until the complement, their lower half.
    pub flags: Flags,
    /// Its incarnation, if it was said.
    pub creation: Option<Creation>,
}

// What a name or a challenge says of its sender.
fn description_in(content: &SentContent) -> Option<NodeDescription<'_>>
    ensures { option_map view_of result ≡ description_in content.now }
{
    match content {
        SentContent::Message(
            Message::OldName { flags, name } | Message::OldChallenge { flags, name, .. },
        ) => Some(NodeDescription {
            name: name.as_slice(),
            flags: Flags(u64::from(*flags)),
            creation: None,
        }),
        SentContent::Message(
            Message::NewName {
                flags,
                creation,
                name,
            }
            | Message::NewChallenge {
                flags,
                creation,
                name,
                ..
            },
        ) => Some(NodeDescription {
            name: name.as_slice(),
            flags: *flags,
            creation: Some(*creation),
        }),
        _ => None,
    }
}

// The same node, with what its complement adds.
fn with_complement<'a>(node: NodeDescription<'a>, behind: &[SentMessage]) -> NodeDescription<'a>
    ensures { view_of result ≡ completed (complement_behind behind.now) (view_of node.entry) }
{
    match (node.creation, complement_behind(behind)) {
        (None, Some((high, creation))) => NodeDescription {
            name: node.name,
            flags: Flags::of_halves(high, node.flags.low()),
            creation: Some(creation),
        },
        _ => node,
    }
}

// What the first name or challenge of these messages says.
fn first_description(said: &[SentMessage]) -> Option<NodeDescription<'_>>
    ensures { option_map view_of result ≡ first_description said.now }
{
    let [sent, behind @ ..] = said else {
        return None;
    };
    match description_in(&sent.content) {
        Some(node) => Some(with_complement(node, behind)),
        None => first_description(behind),
    }
}

impl Handshake {
    /// What a side says of itself, by its first name or challenge.
    pub fn description_of(&self, side: Side) -> Option<NodeDescription<'_>>
        ensures { option_map view_of result ≡ description_of side self.now }
    {
        first_description(self.messages_of(side))
    }

    /// The name that a side says; empty if it says none.
    pub fn name(&self, side: Side) -> &[u8] {
        match self.description_of(side) {
            Some(node) => node.name,
            None => b"",
        }
    }
}
