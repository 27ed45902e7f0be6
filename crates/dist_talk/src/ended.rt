//! What a handshake came to, with the way in which it ended.

ghost use Rattle.std.specs.Prelude.{◌≡◌};
ghost use Rattle.dist_talk.specs.Ended.{closed_verdict, due_verdict, ended_at_once, ended_verdict, has_ack, has_reply, is_closed, is_done, is_missing};
ghost use Rattle.dist_talk.specs.Ended.{left_verdict};
ghost use Rattle.dist_talk.specs.Ended.{opener, probe_verdict, reset_verdict, turn_verdict, unfinished_verdict, verdict_of, without_beginning};
ghost use Rattle.dist_talk.specs.Handshake.{said_by};

use crate::handshake::{Handshake, HandshakeEnd, HowEnded, SentMessage};
use crate::names::{is_long_and_short, is_probe_name};
use crate::service::service_of;
use crate::standing::Standing;
use crate::terms::{Terms, Viewpoint};
use crate::verdict::{AwaitedMessage, HandshakeVerdict, NoCookie};
use dist_messages::Side;

// The name that opened a handshake; empty if none did.
pub(crate) fn opener(said: &[SentMessage]) -> &[u8]
    ensures { result.now ≡ opener said.now }
{
    match said {
        [first, ..] => first.content.name(),
        [] => b"",
    }
}

// A probe ended the handshake at the node's challenge: it tries no cookie, or one name is long and the other short.
fn probe_verdict(terms: &Terms<'_>, own: &[u8]) -> HandshakeVerdict
    ensures { result ≡ probe_verdict terms.now own.now }
{
    match (terms.target, terms.cookie) {
        (Some(target), _) if is_long_and_short(own, target) => HandshakeVerdict::LongAndShort,
        (_, Err(cause)) => HandshakeVerdict::Reached(cause),
        (_, Ok(_)) => HandshakeVerdict::Reached(NoCookie::Asked),
    }
}

// The dialling side ended the handshake upon the challenge.
fn left_verdict(terms: &Terms<'_>, own: &[u8]) -> HandshakeVerdict
    ensures { result ≡ left_verdict terms.now own.now }
{
    match terms.viewpoint {
        Viewpoint::Dialler => probe_verdict(terms, own),
        _ if is_probe_name(own) => HandshakeVerdict::Stopped,
        _ => HandshakeVerdict::Left,
    }
}

// The handshake was made, and the connection ended at once behind that, as a probe that dials ends it.
fn ended_at_once(viewpoint: Viewpoint, own: &[u8]) -> HandshakeVerdict
    ensures { result ≡ ended_at_once viewpoint own.now }
{
    match viewpoint {
        Viewpoint::Acceptor | Viewpoint::Capture if is_probe_name(own) => HandshakeVerdict::Up,
        _ => HandshakeVerdict::Dropped,
    }
}

// The side whose turn it was closed the connection.
fn closed_verdict(terms: &Terms<'_>, own: &[u8], due: AwaitedMessage) -> HandshakeVerdict
    ensures { result ≡ closed_verdict terms.now own.now due }
{
    match due {
        AwaitedMessage::Name => HandshakeVerdict::NoName,
        AwaitedMessage::Status | AwaitedMessage::Challenge => HandshakeVerdict::Gone(due),
        AwaitedMessage::Answer => HandshakeVerdict::Withdrawn(Side::Dialler),
        AwaitedMessage::Reply => left_verdict(terms, own),
        AwaitedMessage::Ack => HandshakeVerdict::WrongCookie(Side::Acceptor),
    }
}

// The side whose turn it was reset the connection, or that broke.
fn reset_verdict(terms: &Terms<'_>, own: &[u8], due: AwaitedMessage) -> HandshakeVerdict
    ensures { result ≡ reset_verdict terms.now own.now due }
{
    match due.side() {
        Side::Dialler => closed_verdict(terms, own, due),
        Side::Acceptor => HandshakeVerdict::Reset(due),
    }
}

// The side whose turn it was ended the handshake so.
fn turn_verdict(
    terms: &Terms<'_>,
    own: &[u8],
    due: AwaitedMessage,
    how: HowEnded,
) -> HandshakeVerdict
    ensures { result ≡ turn_verdict terms.now own.now due how }
{
    match how {
        HowEnded::Closed => closed_verdict(terms, own, due),
        HowEnded::Reset => reset_verdict(terms, own, due),
        HowEnded::Unread => HandshakeVerdict::Withdrawn(due.side()),
        HowEnded::Quiet(count) => HandshakeVerdict::Silent(due, count),
        HowEnded::Foreign(front) => HandshakeVerdict::Foreign(due.side(), service_of(front)),
        HowEnded::NoMemory => HandshakeVerdict::NoMemory,
    }
}

// The handshake ended where this was due.
fn ended_verdict(
    terms: &Terms<'_>,
    own: &[u8],
    due: AwaitedMessage,
    ending: Option<HandshakeEnd>,
) -> HandshakeVerdict
    ensures { result ≡ ended_verdict terms.now own.now due ending }
{
    match ending {
        None => HandshakeVerdict::Unfinished,
        Some(
            HandshakeEnd {
                how: HowEnded::NoMemory,
                ..
            },
        ) => HandshakeVerdict::NoMemory,
        Some(ending) if ending.side == due.side() => turn_verdict(terms, own, due, ending.how),
        Some(ending) => HandshakeVerdict::Withdrawn(ending.side),
    }
}

// Whether one of these is an acknowledgement.
fn has_ack(said: &[SentMessage]) -> bool
    ensures { result ≡ has_ack said.now }
{
    said.iter().any(|sent| sent.content.ack().is_some())
}

// Whether the accepting side closed the connection, and had received all that the other side said.
fn is_closed(ending: Option<HandshakeEnd>) -> bool
    ensures { result ≡ is_closed ending }
{
    match ending {
        Some(
            HandshakeEnd {
                side: Side::Acceptor,
                how: HowEnded::Closed,
            },
        ) => true,
        _ => false,
    }
}

// Whether one of these is a reply.
fn has_reply(said: &[SentMessage]) -> bool
    ensures { result ≡ has_reply said.now }
{
    said.iter().any(|sent| sent.content.reply().is_some())
}

impl Handshake {
    /// Whether a side said the last message of its part: a reply, an acknowledgement. Packets follow.
    pub fn is_done(&self, side: Side) -> bool
        ensures { result ≡ is_done side (said_by side self.now) }
    {
        match side {
            Side::Dialler => has_reply(&self.dialler),
            Side::Acceptor => has_ack(&self.acceptor),
        }
    }

    // Whether bytes of a side are missing behind what it said.
    fn is_missing(&self, side: Side) -> bool
        ensures { result ≡ is_missing side self.now.missing }
    {
        match side {
            Side::Dialler => self.missing.dialler,
            Side::Acceptor => self.missing.acceptor,
        }
    }

    // Where bytes are missing an acknowledgement shows that the handshake was made. Nothing else does.
    fn unfinished_verdict(&self) -> HandshakeVerdict
        ensures { result ≡ unfinished_verdict self.now }
    {
        if has_ack(&self.acceptor) {
            HandshakeVerdict::Finished
        } else {
            HandshakeVerdict::Unfinished
        }
    }

    // What it came to, where this was due.
    fn due_verdict(&self, terms: &Terms<'_>, due: AwaitedMessage) -> HandshakeVerdict
        ensures { result ≡ due_verdict terms.now self.now due }
    {
        if self.is_missing(due.side()) {
            self.unfinished_verdict()
        } else {
            ended_verdict(terms, opener(&self.dialler), due, self.ending)
        }
    }

    /// What it came to.
    ///
    /// `Up` needs both digests to be those of the cookie that is known. A side that took part sees `Dropped` if the connection ended at
    /// once behind that, unless a probe dialled. In a capture bytes may be missing: what depends on them is not judged.
    pub fn verdict(&self, terms: &Terms<'_>) -> HandshakeVerdict
        ensures { result ≡ verdict_of terms.now self.now }
    {
        if self.missing.beginning {
            return self.without_beginning();
        }
        match (self.standing(terms), terms.viewpoint, self.ending) {
            (Standing::Due(due), _, _) => self.due_verdict(terms, due),
            (
                Standing::Decided(HandshakeVerdict::Up),
                Viewpoint::Dialler | Viewpoint::Acceptor,
                Some(_),
            ) => ended_at_once(terms.viewpoint, opener(&self.dialler)),
            (Standing::Decided(verdict), _, _) => verdict,
        }
    }

    // What it came to, if its beginning is missing.
    fn without_beginning(&self) -> HandshakeVerdict
        ensures { result ≡ without_beginning self.now }
    {
        let is_refused = is_closed(self.ending) && has_reply(&self.dialler);
        if is_refused && !has_ack(&self.acceptor) && !self.missing.acceptor {
            HandshakeVerdict::WrongCookie(Side::Acceptor)
        } else {
            self.unfinished_verdict()
        }
    }
}
