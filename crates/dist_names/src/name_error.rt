//! Why bytes are no node name.

ghost use Rattle.std.specs.Prelude.{◌≡◌};
ghost use Rattle.dist_names.specs.declared.name_error.NameError.TheVariants.{NoMemory};

use std::alloc::AllocError;
use thiserror::Error;

/// Why bytes are no node name. The first of these reasons that holds is returned; nothing is kept of the bytes.
#[derive(Clone, Copy, Debug, PartialEq, Eq, Error)]
pub enum NameError {
    /// There are fewer than 3 bytes, so that a part is empty.
    #[error("name is shorter than 3 bytes")]
    TooShort,
    /// There are more than 255 bytes, our own limit.
    #[error("name is longer than 255 bytes")]
    TooLong,
    /// A byte is not from 0x21 to 0x7E, a space or a letter beyond ASCII among them.
    #[error("name has a byte that is no printable ASCII character")]
    BadByte,
    /// There is not exactly one `@`, or the part before or after it is empty.
    #[error("name is not two parts around one @")]
    BadAt,
    /// The bytes are a name, and no memory was left to keep it.
    #[error("out of memory")]
    NoMemory,
}

impl From<AllocError> for NameError {
    ghost from_gives = { λ _ error. error ≡ NoMemory };

    fn from(_error: AllocError) -> NameError {
        NameError::NoMemory
    }
}
