//! What stops the program, and how that is reported.

ghost use Rattle.std.specs.Prelude.{◌≡◌};
ghost use Rattle.distcheck.specs.declared.fault.Fault.TheVariants.{NoMemory};

use dist_epmd_calls::LookupError;
use dist_program::{CookieFault, HostError, WordFault};
use std::alloc::{AllocError, AllocFailed};
use std::fmt;
use thiserror::Error;

/// The exit status where the node or the port mapper was not reached, or is gone.
pub const NOT_THERE: u8 = 3;

/// What ends the program before its verdict. Its `Display` comes after `distcheck: ` on standard error.
#[derive(Drop, Error)]
pub enum Fault {
    /// Neither a node nor a port mapper is named.
    #[error("bad command line: no NODE and no --mapper is named (distcheck --help)")]
    NothingNamed,
    /// `--tls-through` is given without a node, or with `--port`, `--make-it-dial` or `--start`.
    #[error("bad command line: --tls-through goes with a NODE, and not with --port, --make-it-dial or --start")]
    TunnelAlone,
    /// A word of the command line, ERL_EPMD_PORT, or a line of a file of rows is bad: the sentence about it, safe to print.
    #[error("{0}")]
    BadWord(String),
    /// The folder of the rows, or a file in it, could not be read: its name, safe to print.
    #[error("ReadFailed: the rows {0}")]
    RowsUnread(String),
    /// There is no row that was asked for.
    #[error("no row is asked for")]
    NoRow,
    /// The cookie's file gives no cookie, for this cause.
    #[error("{0}")]
    NoCookie(CookieFault),
    /// The host has no address, for this cause.
    #[error("NoHost: {}", .0.text())]
    NoHost(HostError),
    /// Somebody was not reached: who that is, in words.
    #[error("ConnectFailed: {0}")]
    ConnectFailed(&'static str),
    /// The port mapper does not know the node, or did not answer.
    #[error("{}: {}", .0.name(), .0)]
    NotFound(LookupError),
    /// From this talk on nobody took a connection any more.
    #[error("ConnectFailed: nobody takes connections any more: from {0} on")]
    Gone(String),
    /// The system had no descriptor left.
    #[error("NoDescriptors")]
    NoDescriptors,
    /// The system gave no time.
    #[error("ReadFailed: the system's clock")]
    NoTime,
    /// The output could not be written.
    #[error("WriteFailed")]
    WriteFailed,
    /// No memory was left.
    #[error("NoMemory")]
    NoMemory,
}

impl Fault {
    /// The exit status: 2 if the command line, a file that it names or a row is at fault, 3 if the node or the port mapper was not reached or
    /// is gone, else 4.
    pub fn status(&self) -> u8 {
        match self {
            Fault::NoHost(_) | Fault::ConnectFailed(_) | Fault::NotFound(_) | Fault::Gone(_) =>
                NOT_THERE,
            Fault::NoDescriptors | Fault::NoTime | Fault::WriteFailed | Fault::NoMemory => 4,
            _ => 2,
        }
    }
}

impl fmt::Debug for Fault {
    fn fmt<W: fmt::Write>(&self, f: &mut fmt::Formatter<W>) -> fmt::Result {
        write!(f, "{self}")
    }
}

impl From<HostError> for Fault {
    fn from(error: HostError) -> Fault {
        match error {
            HostError::NoMemory => Fault::NoMemory,
            HostError::NoDescriptors => Fault::NoDescriptors,
            other => Fault::NoHost(other),
        }
    }
}

impl From<WordFault> for Fault {
    fn from(fault: WordFault) -> Fault {
        match fault {
            WordFault::Bad(sentence) => Fault::BadWord(sentence),
            WordFault::NoMemory => Fault::NoMemory,
        }
    }
}

impl From<CookieFault> for Fault {
    fn from(fault: CookieFault) -> Fault {
        match fault {
            CookieFault::NoMemory => Fault::NoMemory,
            other => Fault::NoCookie(other),
        }
    }
}

impl From<AllocError> for Fault {
    ghost from_gives = { λ _ fault. fault ≡ NoMemory };

    fn from(_error: AllocError) -> Fault {
        Fault::NoMemory
    }
}

impl<T: Drop> From<AllocFailed<T>> for Fault {
    ghost from_gives = { λ _ fault. fault ≡ NoMemory };

    fn from(_error: AllocFailed<T>) -> Fault {
        Fault::NoMemory
    }
}
