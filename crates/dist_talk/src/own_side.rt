//! What is said on the own side of a handshake.

ghost use Rattle.std.specs.Prelude.{◌≡◌, IfOk};
ghost use Rattle.dist_talk.specs.OwnSide.{ack_due, challenge_due, flags_in, last_of, message_due, opening_flags, own_name, reply_by, reply_due, reply_to};
ghost use Rattle.dist_talk.specs.OwnSide.{status_due};

use crate::ended::opener;
use crate::handshake::{Handshake, SentContent, SentMessage};
use crate::names::is_long_and_short;
use crate::terms::Terms;
use crate::verdict::AwaitedMessage;
use dist_core_setup::{Setup, announced_by};
use dist_messages::{Message, Side, Status};
use dist_names::{ByteString, Flags};
use dist_secret::digest;
use std::alloc::{AllocError, Global};

/// What is said on the own side of a handshake.
#[derive(Clone, Copy)]
pub struct OwnSide<'a> {
    /// Which side it is.
    pub side: Side,
    /// What it announces.
    pub setup: &'a Setup,
    /// What the handshake is judged by; the cookie in it is the own one.
    pub terms: Terms<'a>,
    /// The own challenge.
    pub fresh: u32,
}

// The flags in a name; of an older one their lower half.
fn flags_in(content: &SentContent) -> Flags
    ensures { result ≡ flags_in content.now }
{
    match content {
        SentContent::Message(Message::NewName { flags, .. }) => *flags,
        SentContent::Message(Message::OldName { flags, .. }) => Flags(u64::from(*flags)),
        _ => Flags(0),
    }
}

// The flags by which the handshake was opened.
fn opening_flags(said: &[SentMessage]) -> Flags
    ensures { result ≡ opening_flags said.now }
{
    match said {
        [first, ..] => flags_in(&first.content),
        [] => Flags(0),
    }
}

impl OwnSide<'_> {
    // The own status: a node does not take its own name of another one.
    fn status_due(&self, said: &[SentMessage]) -> Status
        ensures { result ≡ status_due self.now said.now }
    {
        if opener(said) == self.setup.name.bytes() {
            Status::NotAllowed
        } else {
            Status::Ok
        }
    }

    fn own_name(&self, alloc: Global) -> Result<Message, AllocError>
        ensures { IfOk result (λ m. m ≡ own_name self.now) }
    {
        Ok(Message::NewName {
            flags: announced_by(self.setup),
            creation: self.setup.creation,
            name: ByteString::from_slice(alloc, self.setup.name.bytes())?,
        })
    }

    // The own challenge: in the older form for a node that knows version 5 alone.
    fn challenge_due(&self, alloc: Global, theirs: Flags) -> Result<Message, AllocError>
        ensures { IfOk result (λ m. m ≡ challenge_due self.now theirs) }
    {
        let name = ByteString::from_slice(alloc, self.setup.name.bytes())?;
        let (flags, challenge) = (announced_by(self.setup), self.fresh);
        Ok(if theirs.has(Flags::HANDSHAKE_23) {
            Message::NewChallenge {
                flags,
                challenge,
                creation: self.setup.creation,
                name,
            }
        } else {
            Message::OldChallenge {
                flags: flags.low(),
                challenge,
                name,
            }
        })
    }

    // The reply to this challenge of a node of this name. `None` if no cookie is tried, or neither node would dial the other.
    fn reply_by(&self, name: &[u8], challenge: u32) -> Option<Message>
        ensures { result ≡ reply_by self.now name.now challenge }
    {
        match self.terms.cookie {
            Ok(cookie) if !is_long_and_short(self.setup.name.bytes(), name) => Some(
                Message::Reply {
                    challenge: self.fresh,
                    digest: digest(cookie, challenge),
                },
            ),
            _ => None,
        }
    }

    // The reply to what the other side said.
    fn reply_to(&self, content: &SentContent) -> Option<Message>
        ensures { result ≡ reply_to self.now content.now }
    {
        match content {
            SentContent::Message(
                Message::NewChallenge {
                    challenge,
                    name,
                    ..
                }
                | Message::OldChallenge {
                    challenge,
                    name,
                    ..
                },
            ) => self.reply_by(name.as_slice(), *challenge),
            _ => None,
        }
    }

    fn reply_due(&self, said: &[SentMessage]) -> Option<Message>
        ensures { result ≡ reply_due self.now (last_of said.now) }
    {
        match said.last() {
            Some(last) => self.reply_to(&last.content),
            None => None,
        }
    }

    // The acknowledgement of the reply.
    fn ack_due(&self, said: &[SentMessage]) -> Option<Message>
        ensures { result ≡ ack_due self.now (last_of said.now) }
    {
        match (said.last(), self.terms.cookie) {
            (Some(last), Ok(cookie)) => {
                let (challenge, _) = last.content.reply()?;
                Some(Message::Ack {
                    digest: digest(cookie, challenge),
                })
            }
            _ => None,
        }
    }

    /// The own message that is due. `None` if the own side ends the handshake there.
    pub(crate) fn message_due(
        &self,
        alloc: Global,
        talk: &Handshake,
        due: AwaitedMessage,
    ) -> Result<Option<Message>, AllocError>
        ensures { IfOk result (λ m. m ≡ message_due self.now talk.now.dialler.items talk.now.acceptor.items due) }
    {
        Ok(match due {
            AwaitedMessage::Name => Some(self.own_name(alloc)?),
            AwaitedMessage::Status => Some(Message::Status(self.status_due(&talk.dialler))),
            AwaitedMessage::Answer => Some(Message::Status(Status::False)),
            AwaitedMessage::Challenge => Some(self.challenge_due(
                alloc,
                opening_flags(&talk.dialler),
            )?),
            AwaitedMessage::Reply => self.reply_due(&talk.acceptor),
            AwaitedMessage::Ack => self.ack_due(&talk.dialler),
        })
    }
}
