//! How far a probe got on its way to a node, where there are several ways: one for each address of the host.

ghost use Rattle.std.specs.{Prelude.◌≡◌, Prelude.◌<◌, Prelude.length, List.IsFirstBest};
ghost use Rattle.dist_talk.specs.Reaching.{awaited_reach, is_found, is_further, reach, unreached_reach};

use crate::unreached::Unreached;
use crate::verdict::{AwaitedMessage, HandshakeVerdict};
use dist_messages::Side;

// How far a connect got that made no connection: less far where this machine itself could not send.
fn unreached_reach(unreached: Unreached) -> u8
    ensures { result ≡ unreached_reach unreached }
{
    match unreached {
        Unreached::NoRoute
        | Unreached::NoLocalPort
        | Unreached::NoMemory
        | Unreached::NoDescriptors
        | Unreached::Failed => 0,
        Unreached::Refused
        | Unreached::Reset
        | Unreached::HostDown
        | Unreached::Prohibited
        | Unreached::NoAnswer => 1,
    }
}

// How far a handshake got that ended where this was awaited.
fn awaited_reach(awaited: AwaitedMessage) -> u8
    ensures { result ≡ awaited_reach awaited }
{
    match awaited {
        AwaitedMessage::Name | AwaitedMessage::Status | AwaitedMessage::Answer => 0,
        AwaitedMessage::Challenge => 2,
        AwaitedMessage::Reply | AwaitedMessage::Ack => 3,
    }
}

/// How far a probe got, by its verdict, in the order of the way: the host's name, the port mapper, the registration, the node's
/// port, its status, its challenge, its acknowledgement. A fault of this machine ends the way. A host without an address, and a verdict to
/// which no probe comes, have the first place. Each verdict is named here: a new one does not compile before it has its place.
pub fn reach(verdict: HandshakeVerdict) -> u8
    ensures { result ≡ reach verdict }
{
    match verdict {
        HandshakeVerdict::MapperUnreachable(unreached) => 1 + unreached_reach(unreached),
        HandshakeVerdict::MapperRefused => 3,
        HandshakeVerdict::MapperFault(_) => 4,
        HandshakeVerdict::NotRegistered => 5,
        HandshakeVerdict::PortUnreachable(unreached) => 6 + unreached_reach(unreached),
        HandshakeVerdict::PortRefused => 8,
        HandshakeVerdict::Foreign(..) => 9,
        HandshakeVerdict::Silent(awaited, _)
        | HandshakeVerdict::Gone(awaited)
        | HandshakeVerdict::Reset(awaited)
        | HandshakeVerdict::Unexpected(awaited) => 9 + awaited_reach(awaited),
        HandshakeVerdict::OwnName
        | HandshakeVerdict::Busy
        | HandshakeVerdict::LacksFlags(Side::Dialler, _)
        | HandshakeVerdict::NotOnList
        | HandshakeVerdict::AlreadyUp => 10,
        HandshakeVerdict::OtherName(_) | HandshakeVerdict::Version5 => 11,
        HandshakeVerdict::LacksFlags(Side::Acceptor, _)
        | HandshakeVerdict::LongAndShort
        | HandshakeVerdict::Withdrawn(Side::Acceptor)
        | HandshakeVerdict::WrongCookie(_)
        | HandshakeVerdict::WrongAck => 12,
        HandshakeVerdict::Dropped | HandshakeVerdict::Reached(_) | HandshakeVerdict::Up => 13,
        HandshakeVerdict::NoMemory | HandshakeVerdict::NoDescriptors => 14,
        HandshakeVerdict::NoHost(_)
        | HandshakeVerdict::ResolverSilent
        | HandshakeVerdict::Finished
        | HandshakeVerdict::Answered(_)
        | HandshakeVerdict::NameInUse
        | HandshakeVerdict::NoCaller
        | HandshakeVerdict::NoName
        | HandshakeVerdict::Left
        | HandshakeVerdict::Stopped
        | HandshakeVerdict::Withdrawn(Side::Dialler)
        | HandshakeVerdict::WantsName
        | HandshakeVerdict::Dynamic
        | HandshakeVerdict::Unfinished
        | HandshakeVerdict::NothingFound => 0,
    }
}

/// Whether the node itself was found, under its name, so that no further address of its host is tried; or a fault of this machine
/// ended the way.
pub fn is_found(verdict: HandshakeVerdict) -> bool
    ensures { result ≡ is_found verdict }
{
    12 <= reach(verdict)
}

/// The position of the first of these verdicts, at least one, that got furthest.
pub fn furthest(verdicts: &[HandshakeVerdict]) -> usize
    // The caller has at least one verdict.
    requires { 0 < length verdicts.now }
    ensures { IsFirstBest is_further verdicts.now (length verdicts.now) result }
{
    let mut best = 0;
    for at in 1..verdicts.len() {
        if reach(verdicts[best]) < reach(verdicts[at]) {
            best = at;
        }
    }
    best
}
