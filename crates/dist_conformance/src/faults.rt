//! Why a text is not the rows of a section.

ghost use Rattle.dist_conformance.specs.declared.faults.ReadFault.TheVariants as read;
ghost use Rattle.dist_conformance.specs.declared.faults.RowError.TheVariants as row;
ghost use Rattle.std.specs.Prelude.{◌≡◌};

use std::alloc::{AllocError, AllocFailed};
use thiserror::Error;

/// Why a line, or a part of one, was not read.
#[derive(Clone, Copy)]
pub enum ReadFault {
    /// It is not of the form that is wanted.
    Bad,
    /// Memory ran out.
    NoMemory,
}

/// Why a text is not a section. Lines are counted from 1, and the first bad one is returned.
#[derive(Clone, Copy, Debug, Error)]
pub enum RowError {
    /// This line is not the head of a section, where one is due: the first line that is no comment.
    #[error("line {0} is not the head of a section")]
    BadSection(usize),
    /// This line is not the head of a row of the section, where one is due.
    #[error("line {0} is not the head of a row")]
    BadRow(usize),
    /// This line is not a mark, a family or a step.
    #[error("line {0} is not a step")]
    BadStep(usize),
    /// Memory ran out.
    #[error("out of memory")]
    NoMemory,
}

impl From<AllocError> for ReadFault {
    ghost from_gives = { λ _ fault. fault ≡ read.NoMemory };

    fn from(_error: AllocError) -> ReadFault {
        ReadFault::NoMemory
    }
}

impl<T: Drop> From<AllocFailed<T>> for ReadFault {
    ghost from_gives = { λ _ fault. fault ≡ read.NoMemory };

    fn from(_error: AllocFailed<T>) -> ReadFault {
        ReadFault::NoMemory
    }
}

impl From<AllocError> for RowError {
    ghost from_gives = { λ _ error. error ≡ row.NoMemory };

    fn from(_error: AllocError) -> RowError {
        RowError::NoMemory
    }
}

impl<T: Drop> From<AllocFailed<T>> for RowError {
    ghost from_gives = { λ _ error. error ≡ row.NoMemory };

    fn from(_error: AllocFailed<T>) -> RowError {
        RowError::NoMemory
    }
}
