//! The messages of the handshake, read in place.

ghost use Rattle.std.specs.Prelude.{◌≡◌, IfOk, IsErr, IsTrue};
ghost use Rattle.dist_messages.specs.Views.{message_of, has_name};

use crate::message::{Message, Status};
use dist_names::{ByteString, Creation, Flags};
use std::alloc::{AllocError, Global};

/// A [`Message`] whose name stands in the body that it was read from, so that no byte of it is copied. The layouts, and what
/// each field means, are those of `Message`.
#[derive(Clone, Copy)]
pub enum MessageView<'a> {
    /// The dialling side's name in the form of version 5.
    OldName {
        flags: u32,
        name: &'a [u8],
    },
    /// The dialling side's name in the form of version 6.
    NewName {
        flags: Flags,
        creation: Creation,
        name: &'a [u8],
    },
    /// What one side answers to a name, or to `alive`.
    Status(Status),
    /// The accepting side's name and challenge in the form of version 5.
    OldChallenge {
        flags: u32,
        challenge: u32,
        name: &'a [u8],
    },
    /// The accepting side's name and challenge in the form of version 6.
    NewChallenge {
        flags: Flags,
        challenge: u32,
        creation: Creation,
        name: &'a [u8],
    },
    /// What an old name left out.
    Complement {
        high: u32,
        creation: Creation,
    },
    /// The dialling side's answer to a challenge, and its own challenge.
    Reply {
        challenge: u32,
        digest: [u8; 16],
    },
    /// The accepting side's answer to the dialling side's challenge.
    Ack {
        digest: [u8; 16],
    },
}

impl MessageView<'_> {
    /// The same message with a name of its own.
    pub fn to_message(self, alloc: Global) -> Result<Message, AllocError>
        ensures ok { IfOk result (λ m. m ≡ message_of self.entry) }

        // Memory is needed for a name alone.
        ensures memory { IsErr result → IsTrue (has_name (message_of self.entry)) }
    {
        Ok(match self {
            MessageView::OldName { flags, name } => Message::OldName {
                flags,
                name: ByteString::from_slice(alloc, name)?,
            },
            MessageView::NewName {
                flags,
                creation,
                name,
            } => Message::NewName {
                flags,
                creation,
                name: ByteString::from_slice(alloc, name)?,
            },
            MessageView::Status(status) => Message::Status(status),
            MessageView::OldChallenge {
                flags,
                challenge,
                name,
            } => Message::OldChallenge {
                flags,
                challenge,
                name: ByteString::from_slice(alloc, name)?,
            },
            MessageView::NewChallenge {
                flags,
                challenge,
                creation,
                name,
            } => Message::NewChallenge {
                flags,
                challenge,
                creation,
                name: ByteString::from_slice(alloc, name)?,
            },
            MessageView::Complement { high, creation } => Message::Complement { high, creation },
            MessageView::Reply { challenge, digest } => Message::Reply { challenge, digest },
            MessageView::Ack { digest } => Message::Ack { digest },
        })
    }
}
