//! Why some reads or writes weren't all made.

use thiserror::Error;

/// Why a read or a write gave nothing, or not all: the first reason in this order.
///
/// What was read or written before it stays so. The stream is as the failure left it; it may still be used, and its marks stay.
#[derive(Clone, Copy, Debug, PartialEq, Eq, Error)]
pub enum TurnError {
    /// The carrier's fault.
    #[error("a read failed")]
    ReadFailed,
    /// The carrier's fault. A write that took no bytes counts as failed.
    #[error("a write failed")]
    WriteFailed,
    /// A read gave no bytes: the peer closed its end.
    #[error("the stream has ended")]
    Ended,
    /// As many reads and writes were made as were allowed.
    #[error("all turns are used up")]
    Limit,
}
