//! Why a packet is not moved out, or not written.

ghost use Rattle.std.specs.Prelude.{◌≡◌};
ghost use Rattle.dist_frames.specs.declared.packet_error.PacketError.TheVariants.{NoMemory};

use std::alloc::AllocError;
use thiserror::Error;

/// Why a packet is not moved out, or not written: the first reason in this order. Earlier packets stay valid.
#[derive(Clone, Copy, Debug, PartialEq, Eq, Error)]
pub enum PacketError {
    /// The packet has more bytes than the reader takes, which is the peer's fault, or more than its length field of 4 bytes can
    /// count, which is the caller's. A reader returns it again at each call, since it cannot know what comes behind.
    #[error("packet is too long")]
    TooLong(usize),
    /// No memory was left for the packet. It is still the next.
    #[error("out of memory")]
    NoMemory,
}

impl From<AllocError> for PacketError {
    ghost from_gives = { λ _ error. error ≡ NoMemory };

    fn from(_error: AllocError) -> PacketError {
        PacketError::NoMemory
    }
}
