//! What a handshake, or the way to it, comes to.

ghost use Rattle.std.specs.Prelude.{◌≡◌};
ghost use Rattle.dist_talk.specs.Words.{side_of, status_of, verdict_word};

use crate::names::NameStyle;
use crate::service::Service;
use crate::unreached::Unreached;
use dist_epmd_calls::LookupError;
use dist_messages::Side;
use dist_names::Flags;

/// Which message of a handshake is due.
#[derive(Clone, Copy, Debug, PartialEq, Eq)]
pub enum AwaitedMessage {
    /// The name of the side that dialled.
    Name,
    /// The status, after the name.
    Status,
    /// The answer to the status `alive`.
    Answer,
    /// The challenge, after a status that lets the handshake go on.
    Challenge,
    /// The reply to the challenge.
    Reply,
    /// The acknowledgement of the reply.
    Ack,
}

impl AwaitedMessage {
    /// Whose turn it is.
    pub fn side(self) -> Side
        ensures { result ≡ side_of self }
    {
        match self {
            AwaitedMessage::Name | AwaitedMessage::Answer | AwaitedMessage::Reply => Side::Dialler,
            AwaitedMessage::Status | AwaitedMessage::Challenge | AwaitedMessage::Ack => {
                Side::Acceptor
            }
        }
    }
}

/// Why a host's name gave no address.
#[derive(Clone, Copy, Debug, PartialEq, Eq)]
pub enum Unresolved {
    /// No address has this name.
    NoName,
    /// The resolver answered that it could not look the name up.
    Failed,
    /// The host that was named by `--address` has no address.
    NoAddress,
}

/// Why no cookie is tried.
#[derive(Clone, Copy, Debug, PartialEq, Eq)]
pub enum NoCookie {
    /// None was to be tried.
    Asked,
    /// There is none.
    Missing,
}

/// What a handshake, or the way to it, comes to: the first cause for which the two nodes don't come up, or that they do. One table for
/// those that are dialled, those that are taken, and those in a capture.
#[derive(Clone, Copy, Debug, PartialEq, Eq)]
pub enum HandshakeVerdict {
    /// The whole handshake was made, and both digests are those of the cookie that is known.
    Up,
    /// The whole handshake was made. Whether the cookies agree is not known, since no cookie is.
    Finished,
    /// The handshake was made, and the connection ended at once.
    Dropped,
    /// The node took the name and sent its challenge, and no cookie was tried, for this cause.
    Reached(NoCookie),
    /// A reply came to our challenge, and its digest was compared with no cookie, for this cause.
    Answered(NoCookie),
    /// The host's name gave no address.
    NoHost(Unresolved),
    /// The resolver gave no answer in time.
    ResolverSilent,
    /// Nobody listens at the port mapper's port.
    MapperRefused,
    /// The port mapper's port was not reached, for this cause.
    MapperUnreachable(Unreached),
    /// The port mapper gave no answer to the lookup.
    MapperFault(LookupError),
    /// The port mapper knows no node of this name.
    NotRegistered,
    /// The port mapper refused a registration: the name is in use.
    NameInUse,
    /// Nobody listens at the node's port.
    PortRefused,
    /// The node's port was not reached, for this cause.
    PortUnreachable(Unreached),
    /// No node dialled in time.
    NoCaller,
    /// No whole message came where this was awaited, but this many bytes.
    Silent(AwaitedMessage, usize),
    /// The side whose turn it was closed the connection, where this was awaited of the accepting side. At an acknowledgement it is
    /// `WrongCookie`.
    Gone(AwaitedMessage),
    /// The connection was reset, or broke, where this was awaited of the accepting side.
    Reset(AwaitedMessage),
    /// The dialling side ended the connection before its name.
    NoName,
    /// The dialling side ended the connection upon the challenge.
    Left,
    /// The same, of one with the name of a probe.
    Stopped,
    /// This side ended the connection, and it was not its turn.
    Withdrawn(Side),
    /// What this side says is nothing of a handshake, but looks like this.
    Foreign(Side, Service),
    /// A message came out of turn where this was awaited, or a body that is not a message.
    Unexpected(AwaitedMessage),
    /// `nok`, and the dialling side has the node's own name.
    OwnName,
    /// `nok`: the node is dialling that name itself just now.
    Busy,
    /// These flags are not announced: by the dialling side, which the node refuses (`not_allowed`), and releases from 26 on require them;
    /// or by the accepting side, whose flags all releases refuse, and OTP 23 requires them.
    LacksFlags(Side, Flags),
    /// `not_allowed`, though no flag is missing that a known release requires.
    NotOnList,
    /// `alive`: the node counts that name as up.
    AlreadyUp,
    /// A node answered that has another name, of this style.
    OtherName(NameStyle),
    /// One of the two names is long and the other short: nodes of `-name` and of `-sname` don't dial each other.
    LongAndShort,
    /// The node answered with the challenge of version 5.
    Version5,
    /// The dialling side asks for a name (a dynamic name), which this side does not give.
    WantsName,
    /// The same in a capture, where it is not judged.
    Dynamic,
    /// This side has another cookie.
    WrongCookie(Side),
    /// The node accepted the reply, and its own digest is wrong.
    WrongAck,
    /// A capture does not show how the handshake ended.
    Unfinished,
    /// A capture shows nothing of the distribution.
    NothingFound,
    /// Memory ran out here.
    NoMemory,
    /// No descriptor was left here.
    NoDescriptors,
}

impl HandshakeVerdict {
    /// The word of the verdict, as a program prints it.
    pub fn name(self) -> &'static str
        ensures { result.now ≡ verdict_word self }
    {
        match self {
            HandshakeVerdict::Up => "Up",
            HandshakeVerdict::Finished => "Finished",
            HandshakeVerdict::Dropped => "Dropped",
            HandshakeVerdict::Reached(_) => "Reached",
            HandshakeVerdict::Answered(_) => "Answered",
            HandshakeVerdict::NoHost(_) => "NoHost",
            HandshakeVerdict::ResolverSilent => "ResolverSilent",
            HandshakeVerdict::MapperRefused => "MapperRefused",
            HandshakeVerdict::MapperUnreachable(_) => "MapperUnreachable",
            HandshakeVerdict::MapperFault(_) => "MapperFault",
            HandshakeVerdict::NotRegistered => "NotRegistered",
            HandshakeVerdict::NameInUse => "NameInUse",
            HandshakeVerdict::PortRefused => "PortRefused",
            HandshakeVerdict::PortUnreachable(_) => "PortUnreachable",
            HandshakeVerdict::NoCaller => "NoCaller",
            HandshakeVerdict::Silent(..) => "Silent",
            HandshakeVerdict::Gone(_) => "Gone",
            HandshakeVerdict::Reset(_) => "Reset",
            HandshakeVerdict::NoName => "NoName",
            HandshakeVerdict::Left => "Left",
            HandshakeVerdict::Stopped => "Stopped",
            HandshakeVerdict::Withdrawn(_) => "Withdrawn",
            HandshakeVerdict::Foreign(..) => "Foreign",
            HandshakeVerdict::Unexpected(_) => "Unexpected",
            HandshakeVerdict::OwnName => "OwnName",
            HandshakeVerdict::Busy => "Busy",
            HandshakeVerdict::LacksFlags(..) => "LacksFlags",
            HandshakeVerdict::NotOnList => "NotOnList",
            HandshakeVerdict::AlreadyUp => "AlreadyUp",
            HandshakeVerdict::OtherName(_) => "OtherName",
            HandshakeVerdict::LongAndShort => "LongAndShort",
            HandshakeVerdict::Version5 => "Version5",
            HandshakeVerdict::WantsName => "WantsName",
            HandshakeVerdict::Dynamic => "Dynamic",
            HandshakeVerdict::WrongCookie(_) => "WrongCookie",
            HandshakeVerdict::WrongAck => "WrongAck",
            HandshakeVerdict::Unfinished => "Unfinished",
            HandshakeVerdict::NothingFound => "NothingFound",
            HandshakeVerdict::NoMemory => "NoMemory",
            HandshakeVerdict::NoDescriptors => "NoDescriptors",
        }
    }

    /// The exit status, which names the place to look at: 0 nothing, 1 this machine's memory or descriptors, 3 the host's name, 4 the port
    /// mapper, 5 the registration, 6 the node's port, 7 what listens or dials there, 8 what the node allows, 9 the node's name,
    /// 10 the cookie, 12 that there was no cookie to try, or nothing to judge. Our own choice.
    pub fn status(self) -> u8
        ensures { result ≡ status_of self }
    {
        match self {
            HandshakeVerdict::Up
            | HandshakeVerdict::Finished
            | HandshakeVerdict::Reached(NoCookie::Asked)
            | HandshakeVerdict::Answered(NoCookie::Asked)
            | HandshakeVerdict::Stopped
            | HandshakeVerdict::Dynamic
            | HandshakeVerdict::Unfinished => 0,
            HandshakeVerdict::NoMemory | HandshakeVerdict::NoDescriptors => 1,
            HandshakeVerdict::NoHost(_) | HandshakeVerdict::ResolverSilent => 3,
            HandshakeVerdict::MapperRefused
            | HandshakeVerdict::MapperUnreachable(_)
            | HandshakeVerdict::MapperFault(_) => 4,
            HandshakeVerdict::NotRegistered | HandshakeVerdict::NameInUse => 5,
            HandshakeVerdict::PortRefused
            | HandshakeVerdict::PortUnreachable(_)
            | HandshakeVerdict::NoCaller => 6,
            HandshakeVerdict::Dropped
            | HandshakeVerdict::Silent(..)
            | HandshakeVerdict::Gone(_)
            | HandshakeVerdict::Reset(_)
            | HandshakeVerdict::NoName
            | HandshakeVerdict::Withdrawn(_)
            | HandshakeVerdict::Foreign(..)
            | HandshakeVerdict::Unexpected(_)
            | HandshakeVerdict::Version5 => 7,
            HandshakeVerdict::OwnName
            | HandshakeVerdict::Busy
            | HandshakeVerdict::LacksFlags(..)
            | HandshakeVerdict::NotOnList
            | HandshakeVerdict::AlreadyUp => 8,
            HandshakeVerdict::Left
            | HandshakeVerdict::OtherName(_)
            | HandshakeVerdict::LongAndShort
            | HandshakeVerdict::WantsName => 9,
            HandshakeVerdict::WrongCookie(_) | HandshakeVerdict::WrongAck => 10,
            HandshakeVerdict::Reached(NoCookie::Missing)
            | HandshakeVerdict::Answered(NoCookie::Missing)
            | HandshakeVerdict::NothingFound => 12,
        }
    }
}
