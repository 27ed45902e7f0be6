//! Where an end stands.

ghost use Rattle.std.specs.Prelude.{◌≡◌};
ghost use Rattle.dist_core_ends.specs.Ends.{awaited_in};

use crate::why::Why;

/// How far the handshake of an end has come whose peer is known: named for what the end awaits. Beside each variant stands the
/// function of OTP's `dist_util` that waits there.
#[derive(Clone, Copy, PartialEq, Eq)]
pub enum Phase {
    /// Dialled: there is no connection yet.
    Dialing,
    /// Dialled, and superseded before there was a connection; it is closed once there is one.
    DoomedDialing,
    /// Dialled: the name was sent (`recv_status`).
    AwaitStatus,
    /// Dialled, and superseded after the name was sent; it is closed by the next status.
    Doomed,
    /// Dialled: the status lets the handshake go on (`recv_challenge`).
    AwaitChallenge,
    /// Dialled: the reply was sent (`recv_challenge_ack`).
    AwaitAck,
    /// Accepted: `alive` was sent, and the challenge waits for `true` (`recv_status_reply`).
    AwaitTrue,
    /// Accepted after an old name: the challenge was sent (`recv_complement`).
    AwaitComplement,
    /// Accepted: the challenge was sent, and all flags of the other side are known (`recv_challenge_reply`).
    AwaitReply,
}

/// How an end holds its peer.
#[derive(Clone, Copy, PartialEq, Eq)]
pub enum Kind {
    /// Dialled and not up.
    Out,
    /// Accepted and not up.
    In,
    /// Up.
    Up,
}

/// How an end stands, as callers see it.
#[derive(Clone, Copy, Debug, PartialEq, Eq)]
pub enum Still {
    /// The number was never given out.
    NoSuchEnd,
    /// The end is closed, for this cause.
    Gone(Why),
    /// The end is open and not up.
    Pending,
    /// The end is up.
    Up,
}

/// What an open end awaits next of the other side: the message, by the words of the ERTS User's Guide, Distribution
/// Handshake. Where the connection ends meanwhile, this shows how far the handshake got.
#[derive(Clone, Copy, Debug, PartialEq, Eq)]
pub enum Awaited {
    /// The connection itself, which was dialled and is not there yet.
    Connection,
    /// The dialler's name.
    Name,
    /// A status: the acceptor's to the name, or the dialler's, `true` or `false`, to the acceptor's `alive`.
    Status,
    /// The acceptor's challenge.
    Challenge,
    /// The dialler's complement to its old name.
    Complement,
    /// The dialler's reply to the challenge, with its own challenge.
    Reply,
    /// The acceptor's acknowledgement of the reply. An acceptor that finds another cookie in the reply closes the connection here.
    Ack,
    /// Nothing: the end is up.
    Nothing,
}

impl Phase {
    /// What an end in this phase awaits.
    pub fn awaits(self) -> Awaited
        ensures { result ≡ awaited_in self }
    {
        match self {
            Phase::Dialing | Phase::DoomedDialing => Awaited::Connection,
            Phase::AwaitStatus | Phase::Doomed | Phase::AwaitTrue => Awaited::Status,
            Phase::AwaitChallenge => Awaited::Challenge,
            Phase::AwaitAck => Awaited::Ack,
            Phase::AwaitComplement => Awaited::Complement,
            Phase::AwaitReply => Awaited::Reply,
        }
    }
}

/// Why a number has no open end.
#[derive(Clone, Copy, PartialEq, Eq)]
pub enum Absent {
    /// The number was never given out.
    NoSuchEnd,
    /// The end is closed, for this cause.
    Gone(Why),
}
