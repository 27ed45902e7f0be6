//! Faults of the stream and refusals of the codec, as callers get them.

ghost use Rattle.std.specs.Prelude.{◌≡◌};
ghost use Rattle.dist_epmd_calls.specs.Refusals.{lookup_error, whole_refusal, end_refusal};

use crate::lookup_error::LookupError;
use dist_epmd::EpmdError;
use dist_stream::TurnError;

// A fault of the stream, as it is returned.
pub fn lookup_error(fault: TurnError) -> LookupError
    ensures { result ≡ lookup_error fault }
{
    match fault {
        TurnError::ReadFailed => LookupError::ReadFailed,
        TurnError::WriteFailed => LookupError::WriteFailed,
        TurnError::Ended => LookupError::Ended,
        TurnError::Limit => LookupError::Limit,
    }
}

// Why bytes that came whole, as in a frame, are not a message, and why a message has no bytes.
pub fn whole_refusal(error: EpmdError) -> LookupError
    ensures { result ≡ whole_refusal error }
{
    match error {
        EpmdError::Malformed | EpmdError::Short | EpmdError::Trailing => LookupError::Malformed,
        EpmdError::NoMemory => LookupError::NoMemory,
    }
}

// Why bytes that came up to the end of the stream are not an answer.
pub fn end_refusal(error: EpmdError) -> LookupError
    ensures { result ≡ end_refusal error }
{
    match error {
        EpmdError::Malformed | EpmdError::Trailing => LookupError::Malformed,
        EpmdError::Short => LookupError::Ended,
        EpmdError::NoMemory => LookupError::NoMemory,
    }
}
