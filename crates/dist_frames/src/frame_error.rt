//! Why a body is not framed.

ghost use Rattle.std.specs.Prelude.{◌≡◌};
ghost use Rattle.dist_frames.specs.declared.frame_error.FrameError.TheVariants.{NoMemory};

use std::alloc::AllocError;
use thiserror::Error;

/// Why a body is not framed: the first reason in this order. Nothing is kept of the body.
#[derive(Clone, Copy, Debug, PartialEq, Eq, Error)]
pub enum FrameError {
    /// The body has more bytes than its length field of 2 bytes can count: the caller's fault.
    #[error("body has more than 65535 bytes")]
    TooLong,
    /// The body can be framed, and no memory was left for the frame.
    #[error("out of memory")]
    NoMemory,
}

impl From<AllocError> for FrameError {
    ghost from_gives = { λ _ error. error ≡ NoMemory };

    fn from(_error: AllocError) -> FrameError {
        FrameError::NoMemory
    }
}
