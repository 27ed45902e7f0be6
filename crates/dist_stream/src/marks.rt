//! Which marks a read or a write sets.

ghost use Rattle.std.specs.Prelude.{◌≡◌};
ghost use Rattle.dist_stream.specs.Stream.{is_end, is_failed_read, is_failed_write};

use crate::stream::{Heard, Took};

/// Whether the read showed that the stream has ended: it gave no bytes.
pub fn is_end(heard: Heard) -> bool
    ensures { result ≡ is_end heard }
{
    matches!(heard, Heard::Bytes(0))
}

/// Whether the read failed.
pub fn is_failed_read(heard: Heard) -> bool
    ensures { result ≡ is_failed_read heard }
{
    matches!(heard, Heard::Failed)
}

/// Whether the write failed, or took no bytes.
pub fn is_failed_write(took: Took) -> bool
    ensures { result ≡ is_failed_write took }
{
    matches!(took, Took::Bytes(0) | Took::Failed)
}
