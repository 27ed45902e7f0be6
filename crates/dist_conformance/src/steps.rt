//! The steps of a talk.

use crate::digests::ReplyDigest;
use crate::lists::SuiteList;
use crate::patterns::Pattern;
use crate::shapes::FieldForm;
use dist_epmd::NodeInfo;
use dist_names::ByteString;

/// The value of a field that is said.
#[derive(Drop)]
pub enum SaidValue {
    /// These bytes.
    Bytes(ByteString),
    /// This digest of the cookie and this challenge, or the one that came last on the connection.
    Digest(ReplyDigest, Option<u32>),
    /// The challenge that came last on the connection.
    Last,
}

/// A field that is said.
#[derive(Drop)]
pub struct SaidField {
    /// How it stands in the message.
    pub form: FieldForm,
    /// What it says.
    pub value: SaidValue,
}

/// One message of a step `say`. In rows it is one of the words in the first column, and fields in this order, each of which may be left out.
///
/// | Word | Fields | Says |
/// |---|---|---|
/// | `name`, `oldname` | `version=` `flags=` `creation=` `name=` or `namehex=` | a name of version 6, of version 5 |
/// | `challenge`, `oldchallenge` | `version=` `flags=` `challenge=` `creation=` `name=` or `namehex=` | a challenge of version 6, of version 5 |
/// | `complement` | `flags=` `creation=` | what an old name left out |
/// | `status` | WORD | a status, of either side |
/// | `reply` | `challenge=` `digest=` | a reply to the challenge that came last on the connection |
/// | `mirror` | `digest=` | the reply to that challenge, with the same challenge as its own |
/// | `ack` | `challenge=` `digest=` | an acknowledgement of the challenge that came last on the connection, or of this one |
/// | `tick` | | a tick |
/// | `alive2` | `port=` `type=` `protocol=` `high=` `low=` `name=` or `namehex=` `extra=` | a registration |
/// | `alive2x`, `alive2y` | `result=` `creation=` | the answer to a registration, with a creation of 4 or of 2 bytes |
/// | `lookup` | `name=` or `namehex=` | a lookup |
/// | `names` | | a question for all names |
/// | `frame` | BYTES | these bytes as the body of a frame |
/// | `raw` | BYTES | these bytes |
///
/// Behind the fields `less=` leaves out the last bytes of the message, and `extra=` puts bytes behind it, so that a row can ask for a
/// fault; the frame's length counts what is there. Usual are the talk's own name, the flags 403070f94 of releases from OTP 26 on,
/// creation 77, challenge 123456789, the right digest, port 9009, type 77, protocol 0, versions 6 and 5, result 0. A message says those
/// of the fields that it has. Flags are `0x` and digits, or `FLAG` and `-FLAG`: the usual ones with or without this one. BYTES are pieces
/// with `_` between them, each hexadecimal digits, or `HEX*N` with the last byte N times.
#[derive(Drop)]
pub struct SaidPart {
    /// Whether its length stands before it, in 2 bytes.
    pub is_framed: bool,
    /// Its fields, one behind the other.
    pub fields: SuiteList<SaidField>,
    /// How many of its last bytes are left out.
    pub less: usize,
    /// What stands behind it.
    pub extra: ByteString,
}

/// A step `say MESSAGE + MESSAGE.., cut=N pieces=N pause=MS`: what is written on a connection, and how.
#[derive(Drop)]
pub struct Saying {
    /// The messages, one behind the other.
    pub parts: SuiteList<SaidPart>,
    /// Only so many bytes of them are written.
    pub cut: Option<u32>,
    /// How many bytes a single write has; 0: all in one.
    pub pieces: u32,
    /// How many milliseconds lie between two writes.
    pub pause: u32,
}

/// What has to come: `ALTERNATIVE | ALTERNATIVE.. / LOOSE | LOOSE..`, each of them `PATTERN, PATTERN..`, one behind the other.
#[derive(Drop)]
pub struct Demand {
    /// One of these.
    pub wanted: SuiteList<SuiteList<Pattern>>,
    /// Or one of these, which are harmless and not to the letter.
    pub loose: SuiteList<SuiteList<Pattern>>,
}

/// What is done in a step.
#[derive(Drop)]
pub enum Action {
    /// `dial`: a connection to the node.
    Dial,
    /// `ask`: a connection to the port mapper.
    Ask,
    /// `call`, and fields of `alive2`: this is registered at the node's port mapper, with a port of our own, the node is made to dial
    /// it, and its connection is taken. A name that a talk has registered stays so for its other calls. `call none=MS`: the row demands
    /// that no connection comes within so many milliseconds.
    Call(Option<u32>, NodeInfo),
    /// `start`: a node is started that has a port of our own for its port mapper's, and its connection is taken. It ends with the talk.
    /// Where it has registered, each `dial` behind that goes to the port that it named.
    Start,
    /// `take`: another connection to our port is taken.
    Take,
    /// `half`: our writing ends.
    Half,
    /// `close`: the connection is closed.
    Close,
    /// `reset`: the connection is reset.
    Reset,
    /// `wait MS`: nothing is done for so many milliseconds.
    Wait(u32),
    /// `say`.
    Say(Saying),
    /// `hear`: what is on the way to what the row demands. Where it does not come, the talk is blocked.
    Hear(Demand),
    /// `want`: what the row demands.
    Want(Demand),
    /// `tell MS`: whatever comes within so many milliseconds is reported.
    Tell(u32),
}

/// A step of a talk: in rows `CONNECTION: ACTION`, and without a connection it is `a`.
#[derive(Drop)]
pub struct TalkStep {
    /// The connection: 0 to 4 are `a` to `e`.
    pub conn: u8,
    /// The step as it stands in the row, for this talk.
    pub text: ByteString,
    /// What is done.
    pub action: Action,
}
