//! Why a cookie is not kept for a peer.

ghost use Rattle.std.specs.Prelude.{◌≡◌};
ghost use Rattle.dist_secret.specs.Cookies.{refusal_name};

use thiserror::Error;

/// Why a cookie is not kept for a peer. The cookies then stay as they were.
///
/// `Full` comes before `NoMemory`.
#[derive(Clone, Copy, Debug, PartialEq, Eq, Error)]
pub enum CookiesError {
    /// 1,024 other names have cookies of their own, and this one has none yet. Our own limit.
    #[error("no room for the cookie of a further name")]
    Full,
    /// There was room, and no memory was left.
    #[error("out of memory")]
    NoMemory,
}

impl CookiesError {
    /// The variant's name, as a program prints it.
    pub fn name(&self) -> &'static str
        ensures { result.now ≡ refusal_name self.now }
    {
        match self {
            CookiesError::Full => "Full",
            CookiesError::NoMemory => "NoMemory",
        }
    }
}
