//! Why a run ends before its work is done.

ghost use Rattle.std.specs.Prelude.{◌≡◌};
ghost use Rattle.dist_run_hosts.specs.{declared.run_error.RunError.TheVariants.NoMemory, Words.run_error_name};

use dist_drive::LookupError;
use dist_locked::CloseError;
use std::alloc::{AllocError, AllocFailed};
use thiserror::Error;

/// What ends a run before its work is done. All its threads have ended when it is returned.
#[derive(Clone, Copy, Debug, PartialEq, Eq, Error)]
pub enum RunError {
    /// The system gave no random bytes to seed the challenges with.
    #[error("the system gave no random bytes")]
    NoRandomBytes,
    /// The system gave no socket to listen on, or not at the port of the file, or does not report to the port mapper what comes.
    #[error("the system gave no socket to listen on")]
    ListenFailed,
    /// The port mapper of this run couldn't be connected to.
    #[error("the port mapper of the run could not be connected to")]
    ConnectFailed,
    /// The port mapper of this run didn't register a node.
    #[error("the port mapper of the run registered no node")]
    NotRegistered(LookupError),
    /// The system gave no thread to the port mapper or to a node.
    #[error("the system gave no thread")]
    ThreadFailed,
    /// The receipts of a node's steps are not those of its history. It never comes where the threads kept to their seats.
    #[error("the receipts of a node are not those of its history")]
    NotClosed(CloseError),
    /// A node that was closed is not set up as its plan says: a fault of this library, which no run that was seen has had.
    #[error("a closed node is not set up as its plan says")]
    OtherSetup,
    /// The dials that were made and the orders that are reported are not those of the file, each once: a fault of this library,
    /// which no run that was seen has had.
    #[error("the dials and the orders that are reported are not the file's")]
    OtherOrders,
    /// No memory was left.
    #[error("out of memory")]
    NoMemory,
}

impl RunError {
    /// The word that a program prints for it: that of the refusal, or of what the system did not give.
    pub fn name(self) -> &'static str
        ensures { result.now ≡ run_error_name self }
    {
        match self {
            RunError::NoRandomBytes => "ReadFailed",
            RunError::ListenFailed => "ListenFailed",
            RunError::ConnectFailed => "ConnectFailed",
            RunError::NotRegistered(error) => error.name(),
            RunError::ThreadFailed => "ThreadFailed",
            RunError::NotClosed(CloseError::MissingSeat) => "MissingSeat",
            RunError::NotClosed(CloseError::ReceiptAbsent) => "ReceiptAbsent",
            RunError::OtherSetup => "OtherSetup",
            RunError::OtherOrders => "OtherOrders",
            RunError::NoMemory => "NoMemory",
        }
    }
}

impl From<AllocError> for RunError {
    ghost from_gives = { λ _ error. error ≡ NoMemory };

    fn from(_error: AllocError) -> RunError {
        RunError::NoMemory
    }
}

impl<T: Drop> From<AllocFailed<T>> for RunError {
    ghost from_gives = { λ _ error. error ≡ NoMemory };

    fn from(_failed: AllocFailed<T>) -> RunError {
        RunError::NoMemory
    }
}
