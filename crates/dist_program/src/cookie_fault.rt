//! Why a file gives no cookie.

ghost use Rattle.std.specs.Prelude.{◌≡◌};
ghost use Rattle.dist_program.specs.declared.cookie_fault.CookieFault.TheVariants.{NoMemory};

use dist_secret::CookieError;
use std::alloc::AllocError;
use std::fmt;

/// Why a file gives no cookie: the first that holds, except for `NoMemory`, which comes where memory runs out.
#[derive(Drop)]
pub enum CookieFault {
    /// The file could not be opened.
    OpenFailed,
    /// The file is a pipe, a socket or a device.
    NotStored,
    /// Others than the file's owner may use it, or the system does not say whether they may. The path stands between double quotes, and is
    /// safe to print.
    NotPrivate(String),
    /// The file has no cookie.
    NoCookie(CookieError),
    /// No memory was left.
    NoMemory,
}

impl fmt::Display for CookieFault {
    fn fmt<W: fmt::Write>(&self, f: &mut fmt::Formatter<W>) -> fmt::Result {
        let text = match self {
            // The reason in the words of `erl`, and the remedy.
            CookieFault::NotPrivate(file) => return write!(
                f,
                "NotPrivate: cookie file {file} must be accessible by owner only: chmod 600 {file}, or --cookie-unsafe takes it"
            ),
            CookieFault::NoCookie(error) => return write!(f, "{}: {error}", error.name()),
            CookieFault::OpenFailed => "OpenFailed: the cookie's file",
            CookieFault::NotStored =>
                "OpenFailed: the cookie's file is a pipe, a socket or a device",
            CookieFault::NoMemory => "NoMemory",
        };
        f.write_str(text)
    }
}

impl From<AllocError> for CookieFault {
    ghost from_gives = { λ _ fault. fault ≡ NoMemory };

    fn from(_error: AllocError) -> CookieFault {
        CookieFault::NoMemory
    }
}
