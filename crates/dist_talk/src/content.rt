//! What a body says.

ghost use Rattle.std.specs.Prelude.{◌≡◌, IfOk};
ghost use Rattle.dist_talk.specs.Handshake.{Says, ack_in, challenge_in, complement_in, name_in, reply_in};

use crate::handshake::SentContent;
use dist_messages::{Message, MessageError, Side, decode};
use dist_names::{ByteString, Creation};
use std::alloc::{AllocError, Global};

/// What a body of this side says.
pub fn content_of(alloc: Global, side: Side, body: &[u8]) -> Result<SentContent, AllocError>
    ensures { IfOk result (Says side body.now) }
{
    match decode(alloc, side, body) {
        Ok(message) => Ok(SentContent::Message(message)),
        Err(MessageError::NoMemory) => Err(AllocError),
        Err(_) => Ok(SentContent::Other(ByteString::from_slice(alloc, body)?)),
    }
}

impl SentContent {
    /// The name in it, if it is a name of the dialling side; else empty.
    pub fn name(&self) -> &[u8]
        ensures { result.now ≡ name_in self.now }
    {
        match self {
            SentContent::Message(Message::NewName { name, .. } | Message::OldName { name, .. }) => {
                name.as_slice()
            }
            _ => b"",
        }
    }

    /// The challenge in it, in either form.
    pub fn challenge(&self) -> Option<u32>
        ensures { result ≡ challenge_in self.now }
    {
        match self {
            SentContent::Message(
                Message::NewChallenge { challenge, .. } | Message::OldChallenge { challenge, .. },
            ) => Some(*challenge),
            _ => None,
        }
    }

    /// The upper half of the flags, and the creation, if it is a complement.
    pub fn complement(&self) -> Option<(u32, Creation)>
        ensures { result ≡ complement_in self.now }
    {
        match self {
            SentContent::Message(Message::Complement { high, creation }) => Some((
                *high, *creation,
            )),
            _ => None,
        }
    }

    /// The digest, if it is an acknowledgement.
    pub fn ack(&self) -> Option<[u8; 16]>
        ensures { result ≡ ack_in self.now }
    {
        match self {
            SentContent::Message(Message::Ack { digest }) => Some(*digest),
            _ => None,
        }
    }

    /// The challenge and the digest in it, if it is a reply.
    pub fn reply(&self) -> Option<(u32, [u8; 16])>
        ensures { result ≡ reply_in self.now }
    {
        match self {
            SentContent::Message(Message::Reply { challenge, digest }) => Some((
                *challenge, *digest,
            )),
            _ => None,
        }
    }
}
