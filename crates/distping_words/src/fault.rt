//! What stops the program before a verdict, and how that is reported.

ghost use Rattle.std.specs.Prelude.{◌≡◌, ◌⊎◌};
ghost use Rattle.distping_words.specs.{Faults.fault_status, declared.fault.Fault.TheVariants.NoMemory, declared.fault.Fault.TheVariants.WriteFailed};

use dist_cluster::WatchError;
use std::alloc::{AllocError, AllocFailed};
use std::io::{self, ErrorKind};
use thiserror::Error;

/// What ends the program before a verdict, beside the refusals with a text of their own. Its `Display` comes after `distping: ` on
/// standard error.
#[derive(Clone, Copy, Debug, Error)]
pub enum Fault {
    /// No node is named.
    #[error("bad command line: no NODE is named (distping --help)")]
    NoNode,
    /// Both `--cookie` and `--no-cookie` are given.
    #[error("bad command line: --cookie and --no-cookie exclude each other (distping --help)")]
    TwoCookies,
    /// Both `--quiet` and `--verbose` are given.
    #[error("bad command line: --quiet and --verbose exclude each other (distping --help)")]
    TwoDetails,
    /// A text that should be a node's name is not one.
    #[error("a node's name has one @, something on both sides, and 3 to 255 bytes")]
    BadName,
    /// `--port`, `--address` or `--tls-through` is given with several nodes.
    #[error("--port, --address and --tls-through go with one NODE alone")]
    OneNodeAlone,
    /// `--tls-through` is given with `--port`, `--address`, `--listen` or `--capture`.
    #[error("--tls-through goes with one NODE, and not with --port, --address, --listen or --capture")]
    TunnelAlone,
    /// The file of names could not be opened.
    #[error("OpenFailed: the file of --nodes")]
    RosterClosed,
    /// The file of names could not be read.
    #[error("ReadFailed: the file of --nodes")]
    RosterUnread,
    /// The file of names is too long.
    #[error("TooLong: the file of --nodes has more than 1048576 bytes")]
    RosterTooLong,
    /// There are more nodes than are dialled in one run.
    #[error("more than 1024 nodes are named")]
    TooManyNodes,
    /// `--count` is given without `--watch`.
    #[error("--count goes with --watch")]
    CountAlone,
    /// `--prometheus` is given without `--watch`.
    #[error("--prometheus goes with --watch")]
    MetricsAlone,
    /// The system gave no time.
    #[error("ReadFailed: the system's clock")]
    NoTime,
    /// The program can't listen at the port, or take a connection, for this cause.
    #[error("ListenFailed: {0}")]
    ListenFailed(ErrorKind),
    /// The host of `--address` has no address to listen at.
    #[error("ListenFailed: the host of --address has no address")]
    NoListenAddress,
    /// `--listen` needs a name to listen as, and takes no nodes.
    #[error("--listen goes with --name, and with no NODE")]
    ListenAlone,
    /// `--capture` takes no nodes, and goes with no other way to find nodes.
    #[error("--capture goes with no NODE, and not with --listen or --watch")]
    CaptureAlone,
    /// The capture could not be opened.
    #[error("OpenFailed: the file of --capture")]
    CaptureClosed,
    /// The capture is no file that stands on a disk.
    #[error("NotStored: --capture takes a file, or - for standard input, and no pipe or device")]
    CaptureNotStored,
    /// The capture could not be read.
    #[error("ReadFailed: the file of --capture")]
    CaptureUnread,
    /// The file is no capture, or one whose form is not known.
    #[error("Malformed: the file of --capture is no pcap and no pcapng")]
    NoCapture,
    /// Nobody reads the output any more.
    #[error("OutputClosed")]
    OutputClosed,
    /// The output could not be written.
    #[error("WriteFailed")]
    WriteFailed,
    /// The system gave no random bytes.
    #[error("ReadFailed: no random bytes")]
    NoRandomBytes,
    /// No memory was left.
    #[error("NoMemory")]
    NoMemory,
}

impl From<io::Error> for Fault {
    ghost from_gives = { λ _ fault. (fault ≡ NoMemory) ⊎ (fault ≡ WriteFailed) };

    fn from(error: io::Error) -> Fault {
        match error.kind() {
            ErrorKind::OutOfMemory => Fault::NoMemory,
            _ => Fault::WriteFailed,
        }
    }
}

impl From<AllocError> for Fault {
    ghost from_gives = { λ _ fault. fault ≡ NoMemory };

    fn from(_error: AllocError) -> Fault {
        Fault::NoMemory
    }
}

impl From<WatchError> for Fault {
    ghost from_gives = { λ _ fault. fault ≡ NoMemory };

    fn from(_error: WatchError) -> Fault {
        Fault::NoMemory
    }
}

impl<T: Drop> From<AllocFailed<T>> for Fault {
    ghost from_gives = { λ _ fault. fault ≡ NoMemory };

    fn from(_error: AllocFailed<T>) -> Fault {
        Fault::NoMemory
    }
}

impl Fault {
    /// The exit status: 2 if the command line is at fault, else 1.
    pub fn status(self) -> u8
        ensures { result ≡ fault_status self }
    {
        match self {
            Fault::NoNode
            | Fault::TwoCookies
            | Fault::TwoDetails
            | Fault::BadName
            | Fault::OneNodeAlone
            | Fault::TunnelAlone
            | Fault::TooManyNodes
            | Fault::CountAlone
            | Fault::MetricsAlone
            | Fault::ListenAlone
            | Fault::CaptureAlone => 2,
            _ => 1,
        }
    }
}
