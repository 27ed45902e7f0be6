//! Why bytes are not a message of the port mapper, or a message has no bytes.

ghost use Rattle.std.specs.Prelude.{◌≡◌};
ghost use Rattle.dist_epmd.specs.{declared.epmd_error.EpmdError.TheVariants.NoMemory, Answering.error_name};

use std::alloc::{AllocError, AllocFailed};
use thiserror::Error;

/// Why bytes are not a message, or a message has no bytes: the first that holds in this order.
#[derive(Clone, Copy, Debug, PartialEq, Eq, Error)]
pub enum EpmdError {
    /// Reading: the first byte is none of those that may stand there: the sender is to blame. Writing: a request of more than
    /// 65,535 bytes, an answer with a longer name or extra, or `Port(Err(0))`: the caller is to blame.
    #[error("no such message, or one that is too long")]
    Malformed,
    /// The bytes end inside a field, or there are none. The sender is to blame, or not all bytes have come yet.
    #[error("the message ends inside a field")]
    Short,
    /// Bytes stand after the last field. The sender is to blame.
    #[error("bytes stand after the last field")]
    Trailing,
    /// No memory was left for a message without any of the other faults.
    #[error("out of memory")]
    NoMemory,
}

impl EpmdError {
    /// The variant's name, as a program prints it.
    pub fn name(&self) -> &'static str
        ensures { result.now ≡ error_name self.now }
    {
        match self {
            EpmdError::Malformed => "Malformed",
            EpmdError::Short => "Short",
            EpmdError::Trailing => "Trailing",
            EpmdError::NoMemory => "NoMemory",
        }
    }
}

impl From<AllocError> for EpmdError {
    ghost from_gives = { λ _ error. error ≡ NoMemory };

    fn from(_error: AllocError) -> EpmdError {
        EpmdError::NoMemory
    }
}

impl<T: Drop> From<AllocFailed<T>> for EpmdError {
    ghost from_gives = { λ _ error. error ≡ NoMemory };

    fn from(_error: AllocFailed<T>) -> EpmdError {
        EpmdError::NoMemory
    }
}
