//! Why an observation is rejected.

ghost use Rattle.std.specs.Prelude.{◌≡◌};
ghost use Rattle.dist_cluster.specs.declared.watch_error.WatchError.TheVariants.{NoMemory};

use std::alloc::AllocError;
use thiserror::Error;

/// Why an observation is rejected: the first reason in this order. The watch stays as it was.
#[derive(Clone, Copy, Debug, PartialEq, Eq, Error)]
pub enum WatchError {
    /// The watch has no target at that position. The caller's fault.
    #[error("no such target")]
    NoSuchTarget,
    /// The observation is a change, and no memory was left for it. It may be made again.
    #[error("out of memory")]
    NoMemory,
}

impl From<AllocError> for WatchError {
    ghost from_gives = { λ _ error. error ≡ NoMemory };

    fn from(_error: AllocError) -> WatchError {
        WatchError::NoMemory
    }
}
