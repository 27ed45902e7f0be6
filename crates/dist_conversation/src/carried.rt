//! What a conversation carried, and what that came to.

ghost use Rattle.std.specs.Prelude.{◌≡◌};
ghost use Rattle.dist_conversation.specs.Verdicts.{acknowledged_at, is_talk, name_said, verdict_on};

use crate::conversation::Conversation;
use crate::mapper::MapperTalk;
use dist_epmd::Request;
use dist_messages::Side;
use dist_talk::{
    Handshake, HandshakeVerdict, NodeDescription, SentMessage, Terms, Unreached, mapper_verdict,
    port_verdict,
};

/// What a conversation carried.
#[derive(Drop)]
pub enum Carried {
    /// A handshake of Erlang's distribution.
    Handshake(Handshake),
    /// A request to a port mapper, and its answer.
    Talk(MapperTalk),
    /// Nothing: it was never made, for this cause.
    Unreached(Unreached),
    /// TLS, of the side that dialled.
    Tls,
    /// Nothing that is looked into.
    Nothing,
}

/// A conversation was judged: what it carried, and the verdict on that, if it has one.
#[derive(Drop)]
pub struct Conclusion {
    pub carried: Carried,
    pub verdict: Option<HandshakeVerdict>,
}

impl Carried {
    /// The verdict on it: that of the table for live handshakes. `None` if nothing is wrong with a talk with a port mapper, or nothing is carried
    /// that is judged.
    pub fn verdict(&self, terms: &Terms<'_>, is_at_mapper: bool) -> Option<HandshakeVerdict>
        ensures { result ≡ verdict_on terms.now is_at_mapper self.now }
    {
        match self {
            Carried::Handshake(handshake) => Some(handshake.verdict(terms)),
            Carried::Unreached(unreached) if is_at_mapper => Some(mapper_verdict(*unreached)),
            Carried::Unreached(unreached) => Some(port_verdict(*unreached)),
            Carried::Talk(talk) => talk.verdict(),
            Carried::Tls | Carried::Nothing => None,
        }
    }
}

/// When the acknowledgement was there, if these messages have one.
pub fn acknowledged_at(said: &[SentMessage]) -> Option<u64>
    ensures { result ≡ acknowledged_at said.now }
{
    match said {
        [] => None,
        [sent, ..] if sent.content.ack().is_some() => Some(sent.at),
        [_, rest @ ..] => acknowledged_at(rest),
    }
}

impl Conclusion {
    /// The handshake, if it carried one.
    pub fn handshake(&self) -> Option<&Handshake> {
        match &self.carried {
            Carried::Handshake(handshake) => Some(handshake),
            _ => None,
        }
    }

    /// The talk with a port mapper, if it carried one.
    pub fn talk(&self) -> Option<&MapperTalk> {
        match &self.carried {
            Carried::Talk(talk) => Some(talk),
            _ => None,
        }
    }

    /// Whether it carried a talk with a port mapper.
    pub fn is_talk(&self) -> bool
        ensures { result ≡ is_talk self.now.carried }
    {
        matches!(&self.carried, Carried::Talk(_))
    }

    /// What a port mapper was asked, if it was asked anything.
    pub fn request(&self) -> Option<&Request> {
        self.talk()?.request.as_ref()
    }

    /// What a side says of itself, if it carried a handshake in which it does.
    pub fn description_of(&self, side: Side) -> Option<NodeDescription<'_>> {
        self.handshake()?.description_of(side)
    }

    /// The name that a side says; empty if it says none.
    pub fn name_of(&self, side: Side) -> &[u8]
        ensures { result.now ≡ name_said side self.now.carried }
    {
        match &self.carried {
            Carried::Handshake(handshake) => match handshake.description_of(side) {
                Some(node) => node.name,
                None => b"",
            },
            _ => b"",
        }
    }

    /// Whether the verdict rests on how the handshake ended.
    pub fn rests_on_end(&self) -> bool {
        match &self.carried {
            Carried::Handshake(handshake) => handshake.ending.is_some(),
            _ => false,
        }
    }

    /// When the acknowledgement was there.
    pub fn acknowledged_at(&self) -> Option<u64> {
        acknowledged_at(&self.handshake()?.acceptor)
    }

    /// When the two came up, if they did: an acknowledgement with a wrong digest, or without a reply, brings nobody up.
    pub fn up_since(&self) -> Option<u64> {
        match self.verdict {
            Some(HandshakeVerdict::Up | HandshakeVerdict::Finished | HandshakeVerdict::Dynamic) =>
                self.acknowledged_at(),
            _ => None,
        }
    }

    /// Which port the node has whose registration this conversation was, and when it ended.
    pub fn lost_registration(&self, conversation: &Conversation) -> Option<(u16, u64)> {
        let port = self.talk()?.registered_port()?;
        let (_, end) = conversation.any_end()?;
        Some((port, end.at))
    }
}
