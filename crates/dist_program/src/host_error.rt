//! Why a host's name gave no address.

ghost use Rattle.std.specs.Prelude.{◌≡◌};
ghost use Rattle.dist_program.specs.declared.host_error.HostError.TheVariants.{NoMemory};

use std::alloc::{AllocError, AllocFailed};

/// Why a host's name gave no address.
#[derive(Clone, Copy, Debug, PartialEq, Eq)]
pub enum HostError {
    /// No address has this name.
    NoName,
    /// The resolver answered that it could not look the name up, as where no name server answers it.
    Failed,
    /// The resolver gave no answer in time.
    Silent,
    /// The system had no descriptor left to ask with.
    NoDescriptors,
    /// No memory was left, or none for a thread.
    NoMemory,
}

impl HostError {
    /// The text that is printed.
    pub fn text(self) -> &'static str {
        match self {
            HostError::NoName => "the host's name has no address here",
            HostError::Failed => "the resolver failed, as where no name server answers it",
            HostError::Silent => "the resolver gave no answer in time",
            HostError::NoDescriptors => "no descriptor was left to ask the resolver with",
            HostError::NoMemory => "no memory was left",
        }
    }
}

impl From<AllocError> for HostError {
    ghost from_gives = { λ _ error. error ≡ NoMemory };

    fn from(_error: AllocError) -> HostError {
        HostError::NoMemory
    }
}

impl<T: Drop> From<AllocFailed<T>> for HostError {
    ghost from_gives = { λ _ error. error ≡ NoMemory };

    fn from(_error: AllocFailed<T>) -> HostError {
        HostError::NoMemory
    }
}
