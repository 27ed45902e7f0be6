//! Why a text is no nodes file.

ghost use Rattle.std.specs.Prelude.{◌≡◌};
ghost use Rattle.dist_run_plan.specs.declared.plan_error.PlanError.TheVariants.{NoMemory};

use std::alloc::{AllocError, AllocFailed};
use thiserror::Error;

/// Why a text gives no plan. Nothing is kept of the text.
#[derive(Clone, Copy, Debug, PartialEq, Eq, Error)]
pub enum PlanError {
    /// It is no TOML document, or one that breaks a rule of nodes files. The text is to blame.
    #[error("text is no nodes file")]
    Bad,
    /// No memory was left to read it or to keep what it says.
    #[error("out of memory")]
    NoMemory,
}

impl From<AllocError> for PlanError {
    ghost from_gives = { λ _ error. error ≡ NoMemory };

    fn from(_error: AllocError) -> PlanError {
        PlanError::NoMemory
    }
}

impl<T: Drop> From<AllocFailed<T>> for PlanError {
    ghost from_gives = { λ _ error. error ≡ NoMemory };

    fn from(_failed: AllocFailed<T>) -> PlanError {
        PlanError::NoMemory
    }
}
