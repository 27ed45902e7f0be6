//! The table of verdicts: what it means that this was said where that was due.

ghost use Rattle.std.specs.Prelude.{◌≡◌};
ghost use Rattle.dist_talk.specs.Verdicts.{ack_verdict, challenge_verdict, digests_verdict, flags_verdict, name_verdict, not_allowed, status_verdict};

use crate::handshake::SentContent;
use crate::names::style_of;
use crate::opened::Opened;
use crate::standing::ReplyMade;
use crate::terms::Terms;
use crate::verdict::{AwaitedMessage, HandshakeVerdict};
use dist_flags::{Release, is_refused_by_all};
use dist_messages::{Message, Opening, Side, Status};
use dist_names::Flags;
use dist_secret::digest;

fn meaning_of_not_allowed(is_own: bool, lacking: Flags) -> HandshakeVerdict
    ensures { result ≡ not_allowed is_own lacking }
{
    if is_own {
        HandshakeVerdict::OwnName
    } else if lacking.0 == 0 {
        HandshakeVerdict::NotOnList
    } else {
        HandshakeVerdict::LacksFlags(Side::Dialler, lacking)
    }
}

/// The verdict on what the accepting side said upon the name. `None` if the handshake goes on.
pub fn status_verdict(opened: Opened, content: &SentContent) -> Option<HandshakeVerdict>
    ensures { result ≡ status_verdict opened content.now }
{
    let SentContent::Message(Message::Status(status)) = content else {
        return Some(HandshakeVerdict::Unexpected(AwaitedMessage::Status));
    };
    match status {
        Status::Ok | Status::OkSimultaneous => None,
        Status::Nok if opened.is_own => Some(HandshakeVerdict::OwnName),
        Status::Nok => Some(HandshakeVerdict::Busy),
        Status::NotAllowed => Some(meaning_of_not_allowed(opened.is_own, opened.lacking)),
        Status::Alive | Status::True | Status::False => {
            Some(HandshakeVerdict::Unexpected(AwaitedMessage::Status))
        }
    }
}

// The verdict on the flags of the node that was dialled. `None` if some release accepts them.
fn flags_verdict(flags: Flags) -> Option<HandshakeVerdict>
    ensures { result ≡ flags_verdict flags }
{
    if is_refused_by_all(flags) {
        Some(HandshakeVerdict::LacksFlags(Side::Acceptor, Release::Otp23.objection(flags)))
    } else {
        None
    }
}

// The verdict on the name in a challenge. `None` if it may be that of the node that was dialled.
fn name_verdict(terms: &Terms<'_>, name: &[u8]) -> Option<HandshakeVerdict>
    ensures { result ≡ name_verdict terms.now name.now }
{
    if terms.is_other(name) {
        Some(HandshakeVerdict::OtherName(style_of(name)))
    } else {
        None
    }
}

/// The verdict on what the accepting side said where its challenge was due. `None` if the handshake goes on.
pub fn challenge_verdict(
    terms: &Terms<'_>,
    opened: Opened,
    content: &SentContent,
) -> Option<HandshakeVerdict>
    ensures { result ≡ challenge_verdict terms.now opened content.now }
{
    match (content, opened.opening) {
        (SentContent::Message(Message::NewChallenge { flags, name, .. }), _) => {
            match name_verdict(terms, name.as_slice()) {
                Some(verdict) => Some(verdict),
                None => flags_verdict(*flags),
            }
        }
        (SentContent::Message(Message::OldChallenge { .. }), Opening::New) => {
            Some(HandshakeVerdict::Version5)
        }
        (SentContent::Message(Message::OldChallenge { name, .. }), Opening::Old) => {
            name_verdict(terms, name.as_slice())
        }
        (SentContent::Message(Message::Status(Status::NotAllowed)), _) => Some(
            meaning_of_not_allowed(false, opened.lacking),
        ),
        _ => Some(HandshakeVerdict::Unexpected(AwaitedMessage::Challenge)),
    }
}

// The verdict on both digests: they are compared with the cookie that is known, if the reply shows that the dialling side has it.
fn digests_verdict(terms: &Terms<'_>, reply: &ReplyMade, ack: [u8; 16]) -> HandshakeVerdict
    ensures { result ≡ digests_verdict terms.now reply.now ack }
{
    match terms.cookie {
        Ok(cookie) if digest(cookie, reply.challenge) == reply.digest => {
            if digest(cookie, reply.fresh) == ack {
                HandshakeVerdict::Up
            } else {
                HandshakeVerdict::WrongAck
            }
        }
        _ => HandshakeVerdict::Finished,
    }
}

/// The verdict on what the accepting side said upon the reply.
pub fn ack_verdict(
    terms: &Terms<'_>,
    opened: Opened,
    reply: &ReplyMade,
    content: &SentContent,
) -> HandshakeVerdict
    ensures { result ≡ ack_verdict terms.now opened reply.now content.now }
{
    match content {
        SentContent::Message(Message::Ack { digest }) => digests_verdict(terms, reply, *digest),
        SentContent::Message(Message::Status(Status::NotAllowed)) => {
            meaning_of_not_allowed(false, opened.lacking)
        }
        _ => HandshakeVerdict::Unexpected(AwaitedMessage::Ack),
    }
}
