//! Why a call over a stream gave no answer.

ghost use Rattle.std.specs.Prelude.{◌≡◌};
ghost use Rattle.dist_epmd_calls.specs.{Refusals.lookup_error_name, Refusals.lookup_error, declared.lookup_error.LookupError.TheVariants.NoMemory};

use crate::refusals::lookup_error;
use dist_stream::TurnError;
use std::alloc::AllocError;
use thiserror::Error;

/// Why a call over a stream gave no answer: the first reason in this order.
///
/// What was written and read before it stays so, and the stream may be inside a message: it is of no use for another call,
/// unless nothing was written and nothing read. The marks of the stream say which fault it had.
#[derive(Clone, Copy, Debug, PartialEq, Eq, Error)]
pub enum LookupError {
    /// The port mapper knows no node of this name.
    #[error("no node of this name is registered")]
    NotThere,
    /// The peer's bytes spell no message, the caller's request doesn't fit a frame, or the mapper's answer has no bytes.
    #[error("no message, or one that is too long")]
    Malformed,
    /// The carrier's fault.
    #[error("a read failed")]
    ReadFailed,
    /// The carrier's fault. A write that took no bytes counts as failed.
    #[error("a write failed")]
    WriteFailed,
    /// The peer closed the stream too early.
    #[error("the stream ended inside a message")]
    Ended,
    /// The caller may try again.
    #[error("out of memory")]
    NoMemory,
    /// As many reads and writes were made as were allowed.
    #[error("all turns are used up")]
    Limit,
    /// The port mapper refused the registration, with this result.
    #[error("the registration was refused")]
    Refused(u8),
}

impl LookupError {
    /// The variant's name, as a program prints it.
    pub fn name(self) -> &'static str
        ensures { result.now ≡ lookup_error_name self }
    {
        match self {
            LookupError::NotThere => "NotThere",
            LookupError::Malformed => "Malformed",
            LookupError::ReadFailed => "ReadFailed",
            LookupError::WriteFailed => "WriteFailed",
            LookupError::Ended => "Ended",
            LookupError::NoMemory => "NoMemory",
            LookupError::Limit => "Limit",
            LookupError::Refused(_) => "Refused",
        }
    }
}

impl From<AllocError> for LookupError {
    ghost from_gives = { λ _ error. error ≡ NoMemory };

    fn from(_error: AllocError) -> LookupError {
        LookupError::NoMemory
    }
}

impl From<TurnError> for LookupError {
    ghost from_gives = { λ fault error. error ≡ lookup_error fault };

    fn from(fault: TurnError) -> LookupError {
        lookup_error(fault)
    }
}
