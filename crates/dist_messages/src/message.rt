//! The messages of the handshake. Layouts are those of the ERTS User's Guide, Distribution Protocol, Distribution Handshake.

use dist_names::{ByteString, Creation, Flags};

/// Who sends a message.
#[derive(Clone, Copy, Debug, PartialEq, Eq)]
pub enum Side {
    /// The side that connected.
    Dialler,
    /// The side that accepted the connection.
    Acceptor,
}

/// What a status means, and its text. The accepting side sends the first five, the dialling side the others.
#[derive(Clone, Copy, Debug, PartialEq, Eq)]
pub enum Status {
    /// `ok`: the handshake goes on.
    Ok,
    /// `ok_simultaneous`: the handshake goes on, and the accepting side's own attempt is given up.
    OkSimultaneous,
    /// `nok`: the handshake ends, since the accepting side's own attempt goes on.
    Nok,
    /// `not_allowed`: the handshake ends, since the name or its flags are refused.
    NotAllowed,
    /// `alive`: the accepting side has a connection to that name, and asks whether to give it up.
    Alive,
    /// `true`: give it up; the handshake goes on.
    True,
    /// `false`: keep it; the handshake ends.
    False,
}

/// A message of the handshake, as the body of a frame spells it. A body is at most 65,535 bytes long; the length before it
/// is not part of it.
///
/// The first byte is the tag. In the tables each field has its number of bytes; `..` goes on to the end of the body. Numbers
/// are big-endian. Here a name is any bytes, at most 255 where it is written; whether it is a node's name is checked later.
#[derive(Drop)]
pub enum Message {
    /// The dialling side's name in the form of protocol version 5 (`send_name`).
    ///
    /// | tag `n` | version | flags | name |
    /// |---|---|---|---|
    /// | 1 | 2 | 4 | .. |
    ///
    /// The version is written as 5 and read with any value: our own choice, since the flags say all that matters.
    OldName {
        /// The lower half of the flags.
        flags: u32,
        /// The name, which may have no bytes.
        name: ByteString,
    },
    /// The dialling side's name in the form of version 6 (`send_name`).
    ///
    /// | tag `N` | flags | creation | length of the name | name | ignored |
    /// |---|---|---|---|---|---|
    /// | 1 | 8 | 4 | 2 | as the length says | .. |
    ///
    /// Bytes after the name are read and ignored, and none are written.
    NewName {
        /// All flags.
        flags: Flags,
        /// The incarnation of the node that sends this.
        creation: Creation,
        /// The name, which may have no bytes.
        name: ByteString,
    },
    /// What one side answers to a name, or to `alive` (`recv_status`).
    ///
    /// | tag `s` | text |
    /// |---|---|
    /// | 1 | .. |
    ///
    /// The text is exactly that of a status of the side, without a further byte.
    Status(Status),
    /// The accepting side's name and challenge in the form of version 5 (`send_challenge`).
    ///
    /// | tag `n` | version | flags | challenge | name |
    /// |---|---|---|---|---|
    /// | 1 | 2 | 4 | 4 | .. |
    ///
    /// The version is as in an old name.
    OldChallenge {
        /// The lower half of the flags.
        flags: u32,
        /// The number that the dialling side has to digest.
        challenge: u32,
        /// The name, which may have no bytes.
        name: ByteString,
    },
    /// The accepting side's name and challenge in the form of version 6 (`send_challenge`).
    ///
    /// | tag `N` | flags | challenge | creation | length of the name | name | ignored |
    /// |---|---|---|---|---|---|---|
    /// | 1 | 8 | 4 | 4 | 2 | as the length says | .. |
    ///
    /// Bytes after the name are read and ignored, and none are written.
    NewChallenge {
        /// All flags.
        flags: Flags,
        /// The number that the dialling side has to digest.
        challenge: u32,
        /// The incarnation of the node that sends this.
        creation: Creation,
        /// The name, which may have no bytes.
        name: ByteString,
    },
    /// What an old name left out (`send_complement`).
    ///
    /// | tag `c` | upper half of the flags | creation |
    /// |---|---|---|
    /// | 1 | 4 | 4 |
    Complement {
        /// The upper half of the flags.
        high: u32,
        /// The incarnation of the node that sends this.
        creation: Creation,
    },
    /// The dialling side's answer to a challenge, and its own challenge (`send_challenge_reply`).
    ///
    /// | tag `r` | challenge | digest |
    /// |---|---|---|
    /// | 1 | 4 | 16 |
    Reply {
        /// The number that the accepting side has to digest.
        challenge: u32,
        /// The digest of the cookie and the accepting side's challenge.
        digest: [u8; 16],
    },
    /// The accepting side's answer to the dialling side's challenge (`recv_challenge_ack`).
    ///
    /// | tag `a` | digest |
    /// |---|---|
    /// | 1 | 16 |
    Ack {
        /// The digest of the cookie and the dialling side's challenge.
        digest: [u8; 16],
    },
}
