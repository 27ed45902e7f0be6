//! Where a handshake stands: which message is due, or the verdict that a message decided.
//!
//! Each function takes the next message of the side whose turn it is, in the order of the ERTS User's Guide, Distribution Handshake. Only
//! the order of what one side said counts, not which of two sides is seen first.

ghost use Rattle.std.specs.Prelude.{◌≡◌};
ghost use Rattle.dist_talk.specs.Standing.{behind_alive, behind_challenge, behind_complement, behind_name, behind_reply, behind_status};
ghost use Rattle.dist_talk.specs.Standing.{is_bad_name, standing, upon_name, upon_reply};

use crate::handshake::{Handshake, SentContent, SentMessage};
use crate::judging::{ack_verdict, challenge_verdict, status_verdict};
use crate::opened::{Opened, asks_for_name, opened_by};
use crate::terms::{Terms, Viewpoint};
use crate::verdict::{AwaitedMessage, HandshakeVerdict};
use dist_messages::{Message, Side, Status};
use dist_names::are_visible;
use dist_secret::digest;

/// Where a handshake stands.
#[derive(Clone, Copy, Debug, PartialEq, Eq)]
pub enum Standing {
    /// This message is due.
    Due(AwaitedMessage),
    /// What was said decides this.
    Decided(HandshakeVerdict),
}

/// A reply, and the challenge to which it was made.
#[derive(Clone, Copy)]
pub struct ReplyMade {
    /// The challenge of the accepting side.
    pub challenge: u32,
    /// The challenge of the dialling side.
    pub fresh: u32,
    /// The digest in the reply.
    pub digest: [u8; 16],
}

// After the reply: the acknowledgement decides.
fn behind_reply(
    terms: &Terms<'_>,
    opened: Opened,
    reply: &ReplyMade,
    acceptor: &[SentMessage],
) -> Standing
    ensures { result ≡ behind_reply terms.now opened reply.now acceptor.now }
{
    match acceptor {
        [] => Standing::Due(AwaitedMessage::Ack),
        [ack, ..] => Standing::Decided(ack_verdict(terms, opened, reply, &ack.content)),
    }
}

// A reply that is taken by one who knows no cookie, or another one, ends the handshake there.
fn upon_reply(
    terms: &Terms<'_>,
    opened: Opened,
    reply: &ReplyMade,
    acceptor: &[SentMessage],
) -> Standing
    ensures { result ≡ upon_reply terms.now opened reply.now acceptor.now }
{
    match (terms.viewpoint, terms.cookie) {
        (Viewpoint::Acceptor, Err(cause)) => Standing::Decided(HandshakeVerdict::Answered(cause)),
        (Viewpoint::Acceptor, Ok(cookie)) if digest(cookie, reply.challenge) != reply.digest => {
            Standing::Decided(HandshakeVerdict::WrongCookie(Side::Dialler))
        }
        _ => behind_reply(terms, opened, reply, acceptor),
    }
}

// After the challenge, and a complement behind it: the reply is due.
fn behind_complement(
    terms: &Terms<'_>,
    opened: Opened,
    challenge: u32,
    dialler: &[SentMessage],
    acceptor: &[SentMessage],
) -> Standing
    ensures { result ≡ behind_complement terms.now opened challenge dialler.now acceptor.now }
{
    match dialler {
        [] => Standing::Due(AwaitedMessage::Reply),
        [sent, ..] => match &sent.content {
            SentContent::Message(
                Message::Reply {
                    challenge: fresh,
                    digest,
                },
            ) => {
                let reply = ReplyMade {
                    challenge,
                    fresh: *fresh,
                    digest: *digest,
                };
                upon_reply(terms, opened, &reply, acceptor)
            }
            _ => Standing::Decided(HandshakeVerdict::Unexpected(AwaitedMessage::Reply)),
        },
    }
}

// After the challenge: the reply is due, or a complement before it.
fn behind_challenge(
    terms: &Terms<'_>,
    opened: Opened,
    challenge: u32,
    dialler: &[SentMessage],
    acceptor: &[SentMessage],
) -> Standing
    ensures { result ≡ behind_challenge terms.now opened challenge dialler.now acceptor.now }
{
    match dialler {
        [sent, rest @ ..] if sent.content.complement().is_some() => {
            behind_complement(terms, opened, challenge, rest, acceptor)
        }
        _ => behind_complement(terms, opened, challenge, dialler, acceptor),
    }
}

// After a status that lets the handshake go on: the challenge is due. One that was replied to was accepted.
fn behind_status(
    terms: &Terms<'_>,
    opened: Opened,
    dialler: &[SentMessage],
    acceptor: &[SentMessage],
) -> Standing
    ensures { result ≡ behind_status terms.now opened dialler.now acceptor.now }
{
    match acceptor {
        [] => Standing::Due(AwaitedMessage::Challenge),
        [sent, rest @ ..] => match (
            challenge_verdict(terms, opened, &sent.content),
            sent.content.challenge(),
        ) {
            (None, Some(challenge)) => behind_challenge(terms, opened, challenge, dialler, rest),
            (Some(_), Some(challenge)) if !dialler.is_empty() => {
                behind_challenge(terms, opened, challenge, dialler, rest)
            }
            (Some(verdict), _) => Standing::Decided(verdict),
            (None, None) => Standing::Decided(HandshakeVerdict::Unexpected(
                AwaitedMessage::Challenge,
            )),
        },
    }
}

// After `alive`: the answer is due. `true` lets the handshake go on.
fn behind_alive(
    terms: &Terms<'_>,
    opened: Opened,
    dialler: &[SentMessage],
    acceptor: &[SentMessage],
) -> Standing
    ensures { result ≡ behind_alive terms.now opened dialler.now acceptor.now }
{
    match dialler {
        [] => Standing::Due(AwaitedMessage::Answer),
        [sent, rest @ ..] => match &sent.content {
            SentContent::Message(Message::Status(Status::True)) => {
                behind_status(terms, opened, rest, acceptor)
            }
            SentContent::Message(Message::Status(Status::False)) => {
                Standing::Decided(HandshakeVerdict::AlreadyUp)
            }
            _ => Standing::Decided(HandshakeVerdict::Unexpected(AwaitedMessage::Answer)),
        },
    }
}

// After the name: the status is due.
fn behind_name(
    terms: &Terms<'_>,
    opened: Opened,
    dialler: &[SentMessage],
    acceptor: &[SentMessage],
) -> Standing
    ensures { result ≡ behind_name terms.now opened dialler.now acceptor.now }
{
    match acceptor {
        [] => Standing::Due(AwaitedMessage::Status),
        [sent, rest @ ..] => match &sent.content {
            SentContent::Message(Message::Status(Status::Alive)) => {
                behind_alive(terms, opened, dialler, rest)
            }
            content => match status_verdict(opened, content) {
                Some(verdict) => Standing::Decided(verdict),
                None => behind_status(terms, opened, dialler, rest),
            },
        },
    }
}

// Whether the side that is dialled cannot take this for a name: a byte of it is none of a name.
fn is_bad_name(viewpoint: Viewpoint, name: &[u8]) -> bool
    ensures { result ≡ is_bad_name viewpoint name.now }
{
    match viewpoint {
        Viewpoint::Acceptor => !are_visible(name),
        Viewpoint::Dialler | Viewpoint::Capture => false,
    }
}

// The first body of the dialling side: a name, or a request for one, which a capture does not judge.
fn upon_name(
    terms: &Terms<'_>,
    first: &SentMessage,
    dialler: &[SentMessage],
    acceptor: &[SentMessage],
) -> Standing
    ensures { result ≡ upon_name terms.now first.now dialler.now acceptor.now }
{
    if asks_for_name(&first.content) {
        return Standing::Decided(match terms.viewpoint {
            Viewpoint::Capture => HandshakeVerdict::Dynamic,
            Viewpoint::Dialler | Viewpoint::Acceptor => HandshakeVerdict::WantsName,
        });
    }
    if is_bad_name(terms.viewpoint, first.content.name()) {
        return Standing::Decided(HandshakeVerdict::Unexpected(AwaitedMessage::Name));
    }
    match opened_by(terms, &first.content, dialler) {
        Some(opened) => behind_name(terms, opened, dialler, acceptor),
        None => Standing::Decided(HandshakeVerdict::Unexpected(AwaitedMessage::Name)),
    }
}

impl Handshake {
    /// Where it stands, by what both sides said.
    pub fn standing(&self, terms: &Terms<'_>) -> Standing
        ensures { result ≡ standing terms.now self.now }
    {
        match self.dialler.as_slice() {
            [] => Standing::Due(AwaitedMessage::Name),
            [first, rest @ ..] => upon_name(terms, first, rest, &self.acceptor),
        }
    }
}
