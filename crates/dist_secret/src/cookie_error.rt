//! Why a text has no cookie.

ghost use Rattle.std.specs.Prelude.{◌≡◌};
ghost use Rattle.dist_secret.specs.{declared.cookie_error.CookieError.TheVariants.NoMemory, Answer.error_name};

use std::alloc::AllocError;
use thiserror::Error;

/// Why there is no cookie. Nothing is kept of the bytes.
///
/// Where several of these hold, the first in this order is returned (our own choice): a read that failed, a text that is too
/// long, no byte of a cookie, a cookie that is too long, a byte that may not follow, out of memory.
#[derive(Clone, Copy, Debug, PartialEq, Eq, Error)]
pub enum CookieError {
    /// The text has no byte, or its first is not from 0x20 to 0x7E. The text is to blame.
    #[error("no byte of a cookie stands at the front")]
    Empty,
    /// Behind the cookie stands a byte other than a line feed, a carriage return or a space. The text is to blame.
    #[error("a byte that may not follow stands behind the cookie")]
    BadByte,
    /// The text has more than 4,096 bytes, or its cookie more than 255. The text is to blame.
    #[error("the text or the cookie is too long")]
    TooLong,
    /// The reader failed in any way, an interrupted read included. What it had given is dropped; it is not read again.
    #[error("a read failed")]
    ReadFailed,
    /// The text has a cookie, and no memory was left to keep it.
    #[error("out of memory")]
    NoMemory,
}

impl CookieError {
    /// The variant's name, as a program prints it.
    pub fn name(&self) -> &'static str
        ensures { result.now ≡ error_name self.now }
    {
        match self {
            CookieError::Empty => "Empty",
            CookieError::BadByte => "BadByte",
            CookieError::TooLong => "TooLong",
            CookieError::ReadFailed => "ReadFailed",
            CookieError::NoMemory => "NoMemory",
        }
    }
}

impl From<AllocError> for CookieError {
    ghost from_gives = { λ _ error. error ≡ NoMemory };

    fn from(_error: AllocError) -> CookieError {
        CookieError::NoMemory
    }
}
