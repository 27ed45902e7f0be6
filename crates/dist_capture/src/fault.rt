//! Why a capture can't be read on.

ghost use Rattle.std.specs.Prelude.{◌≡◌};
ghost use Rattle.dist_capture.specs.declared.fault.CaptureFault.TheVariants.{NoMemory};

use std::alloc::{AllocError, AllocFailed};
use thiserror::Error;

/// Why a capture can't be read on. Each but `NoMemory` is the fault of the capture, and comes again at the next call.
#[derive(Clone, Copy, Debug, PartialEq, Eq, Error)]
pub enum CaptureFault {
    /// It begins as neither pcap nor pcapng does.
    #[error("no capture in the format of pcap or pcapng")]
    NotACapture,
    /// A block contradicts itself, or belongs to an interface that was not described.
    #[error("a block of the capture is malformed")]
    Malformed,
    /// A packet or a block has more than 16,777,216 bytes, our own choice.
    #[error("a packet of the capture has more than 16777216 bytes")]
    TooLong,
    /// A section of pcapng describes more than 65,536 interfaces, our own choice.
    #[error("a section of the capture describes more than 65536 interfaces")]
    TooManyInterfaces,
    /// An interface counts the time in other units than a second or a decimal fraction of it down to a nanosecond.
    #[error("an interface of the capture counts the time in units that are not known")]
    UnknownClock,
    /// Nothing of what was fed is lost: the call may be made again.
    #[error("out of memory")]
    NoMemory,
}

impl From<AllocError> for CaptureFault {
    ghost from_gives = { λ _ error. error ≡ NoMemory };

    fn from(_error: AllocError) -> CaptureFault {
        CaptureFault::NoMemory
    }
}

impl<T: Drop> From<AllocFailed<T>> for CaptureFault {
    ghost from_gives = { λ _ error. error ≡ NoMemory };

    fn from(_error: AllocFailed<T>) -> CaptureFault {
        CaptureFault::NoMemory
    }
}
