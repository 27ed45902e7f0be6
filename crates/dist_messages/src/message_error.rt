//! Why a body is not a message, or a message has no body.

ghost use Rattle.std.specs.Prelude.{◌≡◌};
ghost use Rattle.dist_messages.specs.declared.message_error.MessageError.TheVariants.{NoMemory};

use std::alloc::{AllocError, AllocFailed};
use thiserror::Error;

/// Why a body is not a message, or a message has no body: the first that holds, in this order. What was handed in is
/// unchanged after each of them.
#[derive(Clone, Copy, Debug, PartialEq, Eq, Error)]
pub enum MessageError {
    /// 1. There is no byte, and so no tag: the peer's fault.
    #[error("body is empty")]
    Empty,
    /// 2. No message of this side has the tag: the peer's fault. In `encode`, the message is one of the other side: the
    /// caller's fault.
    #[error("this side has no such message")]
    UnknownTag,
    /// 3. The body ends inside a field: the peer's fault.
    #[error("body ends inside a field")]
    Short,
    /// 4. Bytes stand after the last field of a complement, a reply or an acknowledgement: the peer's fault.
    #[error("bytes stand after the last field")]
    Long,
    /// 5. The name has more than 255 bytes: the caller's fault. Only `encode` returns it: `decode` reads longer names.
    #[error("name has more than 255 bytes")]
    BadName,
    /// 6. No status of this side has the text: the peer's fault. In `encode`, the status is one of the other side:
    /// the caller's fault.
    #[error("this side has no such status")]
    UnknownStatus,
    /// 7. Memory ran out: nobody's fault. The body is a message, or the message has a body.
    #[error("out of memory")]
    NoMemory,
}

impl From<AllocError> for MessageError {
    ghost from_gives = { λ _ error. error ≡ NoMemory };

    fn from(_error: AllocError) -> MessageError {
        MessageError::NoMemory
    }
}

impl<T: Drop> From<AllocFailed<T>> for MessageError {
    ghost from_gives = { λ _ error. error ≡ NoMemory };

    fn from(_error: AllocFailed<T>) -> MessageError {
        MessageError::NoMemory
    }
}
