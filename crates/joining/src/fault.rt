//! What stops the program, and how that is reported.

ghost use Rattle.std.specs.Prelude.{◌≡◌};
ghost use Rattle.joining.specs.Faults.{fault_status};

use dist_program::{CookieFault, HostError, WordFault};
use distribution::{Awaited, LookupError, PacketError, StepError, TurnError, Why};
use std::alloc::AllocError;
use std::{fmt, io};

/// What ends the program before the end of its input. Its `Display` comes after `joining: ` on standard error.
#[derive(Drop)]
pub enum Fault {
    /// A word of the command line, or ERL_EPMD_PORT, is bad: the sentence about it, safe to print.
    BadWord(String),
    /// No node is named.
    NamesNoNode,
    /// The cookie's file gives no cookie, for this cause.
    NoCookie(CookieFault),
    /// The node's host has no address, for this cause.
    NoHost(HostError),
    /// The port mapper was not reached.
    NoMapper,
    /// The port mapper does not know the node, or did not answer.
    NotFound(LookupError),
    /// The node's port was not reached.
    NoNode,
    /// The handshake failed, for this cause. If the connection failed, or nothing came, also the message that was awaited.
    NotUp(Why, Option<Awaited>),
    /// The link was up, and was lost, for this cause.
    Lost(Why),
    /// The system gave no random bytes, no time or no thread.
    SystemFailed,
    /// The peer sent a packet that is longer than this program accepts.
    LongPacket,
    /// The output could not be written.
    WriteFailed,
    /// No memory was left.
    NoMemory,
}

/// How far a dial got that found the node: its name fits, and only the acknowledgement is missing. No further address is tried then.
pub const FOUND: u8 = 8;

impl Fault {
    // The first part of what is printed.
    fn text(&self) -> &str {
        match self {
            Fault::BadWord(sentence) => sentence.as_str(),
            Fault::NamesNoNode => "bad command line: no NODE is named (joining --help)",
            Fault::NoCookie(_) => "",
            Fault::NoHost(_) => "NoHost",
            Fault::NoMapper => "ConnectFailed: the port mapper",
            Fault::NotFound(error) => error.name(),
            Fault::NoNode => "ConnectFailed: the node",
            Fault::NotUp(why, _) | Fault::Lost(why) => why.name(),
            Fault::SystemFailed => "SystemFailed: no random bytes, no time or no thread",
            Fault::LongPacket => "TooLong: a packet",
            Fault::WriteFailed => "WriteFailed",
            Fault::NoMemory => "NoMemory",
        }
    }

    // The second part, unless it is made of what the fault holds.
    fn explanation(&self) -> &'static str {
        match self {
            Fault::NotFound(LookupError::Limit) => ": the port mapper gave no whole answer in time",
            Fault::NotUp(..) => ": the handshake did not end well",
            Fault::Lost(_) => ": the link is lost",
            _ => "",
        }
    }

    /// The exit status: 2 if the command line is at fault, 3 if the node was not joined, 4 if the link was lost, else 1.
    pub fn status(&self) -> u8
        ensures { result ≡ fault_status self.now }
    {
        match self {
            Fault::BadWord(_) | Fault::NamesNoNode => 2,
            Fault::NoHost(_)
            | Fault::NoMapper
            | Fault::NotFound(_)
            | Fault::NoNode
            | Fault::NotUp(..) => 3,
            Fault::Lost(_) | Fault::LongPacket => 4,
            _ => 1,
        }
    }

    /// How far a dial got, in the order of its steps: the host's name, the port mapper, the registration, the node's port, its status,
    /// its challenge, the acknowledgement. A fault of this machine counts as more than any.
    pub fn reach(&self) -> u8 {
        match self {
            Fault::NoHost(_) => 0,
            Fault::NoMapper => 1,
            Fault::NotFound(LookupError::NotThere) => 3,
            Fault::NotFound(_) => 2,
            Fault::NoNode => 4,
            Fault::NotUp(why, awaited) => handshake_reach(*why, *awaited),
            _ => 9,
        }
    }
}

// What was missing in a handshake. A node with another cookie sends nothing, and closes.
fn missing_text(why: Why, awaited: Option<Awaited>) -> &'static str {
    match awaited {
        Some(Awaited::Status) => ": the node said nothing to our name",
        Some(Awaited::Challenge) => ": the node did not say its challenge",
        Some(Awaited::Ack) =>
            ": the node did not acknowledge our digest, as where it has another cookie",
        _ if why == Why::WrongFlags => ": the node lacks a flag that OTP 25 and newer require",
        _ => "",
    }
}

// How far a handshake got. A node whose name fits sends its challenge.
fn handshake_reach(why: Why, awaited: Option<Awaited>) -> u8 {
    match awaited {
        Some(Awaited::Ack) => FOUND,
        Some(Awaited::Challenge) => 7,
        Some(_) => 5,
        None => match why {
            Why::WrongDigest => FOUND,
            Why::WrongName | Why::WrongFlags => 7,
            Why::StatusRefused => 6,
            _ => 5,
        },
    }
}

impl fmt::Display for Fault {
    fn fmt<W: fmt::Write>(&self, f: &mut fmt::Formatter<W>) -> fmt::Result {
        f.write_str(self.text())?;
        f.write_str(self.explanation())?;
        match self {
            Fault::NoCookie(fault) => write!(f, "{fault}"),
            Fault::NoHost(error) => write!(f, ": {}", error.text()),
            Fault::NotFound(error) if *error != LookupError::Limit => write!(f, ": {error}"),
            Fault::NotUp(why, awaited) => f.write_str(missing_text(*why, *awaited)),
            _ => Ok(()),
        }
    }
}

impl From<WordFault> for Fault {
    fn from(fault: WordFault) -> Fault {
        match fault {
            WordFault::Bad(sentence) => Fault::BadWord(sentence),
            WordFault::NoMemory => Fault::NoMemory,
        }
    }
}

impl From<CookieFault> for Fault {
    fn from(fault: CookieFault) -> Fault {
        Fault::NoCookie(fault)
    }
}

impl From<StepError> for Fault {
    fn from(error: StepError) -> Fault {
        match error {
            StepError::NoMemory => Fault::NoMemory,
            StepError::Gone(why) => Fault::NotUp(why, None),
            _ => Fault::NotUp(Why::GaveUp, None),
        }
    }
}

// (a read or a write on the link)
impl From<TurnError> for Fault {
    fn from(error: TurnError) -> Fault {
        Fault::Lost(match error {
            TurnError::Ended => Why::Ended,
            TurnError::ReadFailed => Why::ReadFailed,
            TurnError::WriteFailed => Why::WriteFailed,
            TurnError::Limit => Why::GaveUp,
        })
    }
}

// (a packet that arrives, or one that is written)
impl From<PacketError> for Fault {
    fn from(error: PacketError) -> Fault {
        match error {
            PacketError::TooLong(_) => Fault::LongPacket,
            PacketError::NoMemory => Fault::NoMemory,
        }
    }
}

// (what is asked of the system, but for a write: `printing` has that)
impl From<io::Error> for Fault {
    fn from(_error: io::Error) -> Fault {
        Fault::SystemFailed
    }
}

impl From<AllocError> for Fault {
    fn from(_error: AllocError) -> Fault {
        Fault::NoMemory
    }
}
