//! Why the program stops.

ghost use Rattle.std.specs.Prelude.{◌≡◌};
ghost use Rattle.distmapd.specs.{declared.fault.Fault.TheVariants.NoMemory, Answers.fault_status};

use dist_program::{TextError, WordFault};
use std::alloc::AllocError;
use thiserror::Error;

/// Why the program stops.
#[derive(Debug, Drop, Error)]
pub enum Fault {
    /// A word of the command line, or ERL_EPMD_PORT, is refused. The user is to blame.
    #[error("{0}")]
    BadWords(String),
    /// A word is not UTF-8. The user is to blame.
    #[error("a word of the command line or the environment is no UTF-8")]
    NoText,
    /// An address is not an IP address. The user is to blame.
    #[error("-address and ERL_EPMD_ADDRESS want IP addresses with commas between them")]
    BadAddress,
    /// It can't listen: the port is taken, an address is not this host's, or no listening socket was handed over to it.
    #[error("ListenFailed: the port is taken, an address is not of this host, or no socket that listens was handed over to it")]
    ListenFailed,
    /// It can't listen at the place of the figures.
    #[error("MetricsFailed: the port of -metrics is taken, or the address is not of this host")]
    MetricsFailed,
    /// Behind the descriptors that `-metrics` reserves none is left for a client.
    #[error("NoDescriptors: beside those that -metrics reserves no descriptor is left for a client: raise ulimit -n")]
    NoDescriptors,
    /// The system doesn't report what is ready.
    #[error("ServeFailed")]
    ServeFailed,
    /// No program listens at the port of the port mapper.
    #[error("ConnectFailed: no port mapper listens at that port of this host")]
    ConnectFailed,
    /// The port mapper did not answer.
    #[error("NoAnswer")]
    NoAnswer,
    /// The port mapper's answer was cut; what arrived was printed.
    #[error("AnswerCut: names may be missing")]
    AnswerCut,
    /// The output could not be written.
    #[error("WriteFailed")]
    WriteFailed,
    /// No memory was left.
    #[error("NoMemory")]
    NoMemory,
}

impl Fault {
    /// The exit status.
    pub fn status(&self) -> u8
        ensures { result ≡ fault_status self.now }
    {
        match self {
            Fault::BadWords(_) | Fault::NoText | Fault::BadAddress => 2,
            _ => 1,
        }
    }
}

impl From<WordFault> for Fault {
    fn from(fault: WordFault) -> Fault {
        match fault {
            WordFault::Bad(sentence) => Fault::BadWords(sentence),
            WordFault::NoMemory => Fault::NoMemory,
        }
    }
}

impl From<TextError> for Fault {
    fn from(error: TextError) -> Fault {
        match error {
            TextError::NoText => Fault::NoText,
            TextError::NoMemory => Fault::NoMemory,
        }
    }
}

impl From<AllocError> for Fault {
    ghost from_gives = { λ _ fault. fault ≡ NoMemory };

    fn from(_error: AllocError) -> Fault {
        Fault::NoMemory
    }
}
