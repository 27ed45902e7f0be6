//! Why there is no world.

ghost use Rattle.std.specs.Prelude.{◌≡◌};
ghost use Rattle.dist_audit.specs.{Refusals.refusal_name, Refusals.refusal_number, declared.audit_error.AuditError.TheVariants.NoMemory};

use std::alloc::{AllocError, AllocFailed};
use thiserror::Error;

/// Why histories make no world. Of the first three the first that holds is returned, in this order.
#[derive(Clone, Copy, Debug, PartialEq, Eq, Error)]
pub enum AuditError {
    /// In one history a ticket is not greater than the one before. The fault of whoever kept it.
    #[error("the tickets of a node do not rise")]
    TicketFalls,
    /// A ticket stands in two histories.
    #[error("a ticket stands in two histories")]
    TicketTwice,
    /// There are more than 1,048,576 nodes, or two of one name; or a link was dialled twice, or came twice, or came and was
    /// not dialled.
    #[error("nodes or links are not in pairs")]
    Unpaired,
    /// A frame is not the next one that the other end had sent by then.
    #[error("a frame was not sent")]
    NotSent,
    /// A line does not happen, or is answered otherwise, or a node ends with other entries or records.
    #[error("a node answers otherwise")]
    OtherReply,
    /// Nothing else stood against it, and no memory was left.
    #[error("out of memory")]
    NoMemory,
}

impl AuditError {
    /// The refusal's name, as a program prints it.
    pub fn name(self) -> &'static str
        ensures { result.now ≡ refusal_name self }
    {
        match self {
            AuditError::TicketTwice => "TicketTwice",
            AuditError::TicketFalls => "TicketFalls",
            AuditError::Unpaired => "Unpaired",
            AuditError::NotSent => "NotSent",
            AuditError::OtherReply => "OtherReply",
            AuditError::NoMemory => "NoMemory",
        }
    }

    /// The refusal's number, from 1 to 6, as a program prints it before the name.
    pub fn number(self) -> u32
        ensures { result ≡ refusal_number self }
    {
        match self {
            AuditError::TicketTwice => 1,
            AuditError::TicketFalls => 2,
            AuditError::Unpaired => 3,
            AuditError::NotSent => 4,
            AuditError::OtherReply => 5,
            AuditError::NoMemory => 6,
        }
    }
}

impl From<AllocError> for AuditError {
    ghost from_gives = { λ _ error. error ≡ NoMemory };

    fn from(_error: AllocError) -> AuditError {
        AuditError::NoMemory
    }
}

impl<T: Drop> From<AllocFailed<T>> for AuditError {
    ghost from_gives = { λ _ error. error ≡ NoMemory };

    fn from(_error: AllocFailed<T>) -> AuditError {
        AuditError::NoMemory
    }
}
