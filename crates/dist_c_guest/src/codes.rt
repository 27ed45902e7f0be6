//! The numbers by which C knows answers and causes.
ghost use Rattle.std.specs.Prelude.{◌≡◌, IfSome, Some};
ghost use Rattle.dist_core_ends.specs.declared.why.Why.{Why};
ghost use Rattle.dist_c_guest.specs.Codes.{step_code, change_code, name_code, cookie_code, why_number};

use dist_core::{ChangeError, StepError, Why};
use dist_names::NameError;
use dist_secret::CookieError;

/// The call did what it says.
pub const OK: u32 = 0;

/// The struct holds nothing.
pub const NOT_A_NODE: u32 = 1;

/// The struct holds one already.
pub const IN_USE: u32 = 2;

/// No memory was left.
pub const NO_MEMORY: u32 = 3;

/// The caller's room is too short.
pub const NO_ROOM: u32 = 4;

/// The frame has not come whole.
pub const AWAITS: u32 = 5;

/// A number or a place names nothing.
pub const NO_SUCH: u32 = 6;

/// No frame has so long a body.
pub const TOO_LONG: u32 = 8;

/// An end is open.
pub const OPEN_ENDS: u32 = 16;

/// An end that is up has to be lost first.
pub const SHOWN_END: u32 = 17;

/// The flags of a setup are half.
pub const HALF_FLAGS: u32 = 50;

/// Of a refused step.
pub fn step_code(error: StepError) -> u32
    ensures code { result ≡ step_code error }
    ensures memory { result ≡ 3 → error ≡ StepError.NoMemory }
{
    match error {
        StepError::NoMemory => 3,
        StepError::NoSuchEnd => 10,
        StepError::Gone(_) => 11,
        StepError::WrongPhase => 12,
        StepError::Busy(_) => 13,
        StepError::Spent => 14,
        StepError::Full => 15,
    }
}

/// Of a setup that is not changed.
pub fn change_code(error: ChangeError) -> u32
    ensures { result ≡ change_code error }
{
    match error {
        ChangeError::NoMemory => 3,
        ChangeError::InUse => 9,
        ChangeError::Full => 15,
    }
}

/// Of bytes that are no name.
pub fn name_code(error: NameError) -> u32
    ensures { result ≡ name_code error }
{
    match error {
        NameError::NoMemory => 3,
        NameError::TooShort => 20,
        NameError::TooLong => 21,
        NameError::BadByte => 22,
        NameError::BadAt => 23,
    }
}

/// Of a text that has no cookie.
pub fn cookie_code(error: CookieError) -> u32
    ensures { result ≡ cookie_code error }
{
    match error {
        CookieError::NoMemory => 3,
        CookieError::Empty => 30,
        CookieError::BadByte => 31,
        CookieError::TooLong => 32,
        CookieError::ReadFailed => 33,
    }
}

/// Of a cause.
pub fn why_number(why: Why) -> u32
    ensures { result ≡ why_number why }
{
    match why {
        Why::Ended => 1,
        Why::ReadFailed => 2,
        Why::WriteFailed => 3,
        Why::GaveUp => 4,
        Why::DialFailed => 5,
        Why::Malformed => 6,
        Why::Unexpected => 7,
        Why::WrongName => 8,
        Why::WrongFlags => 9,
        Why::WrongDigest => 10,
        Why::StatusRefused => 11,
        Why::Refused => 12,
        Why::Crossed => 13,
        Why::Replaced => 14,
        Why::NoMemory => 15,
    }
}

/// The cause of a number.
pub fn why_of(number: u32) -> Option<Why>
    ensures { IfSome result (λ why. why_number why ≡ number) }
{
    match number {
        1 => Some(Why::Ended),
        2 => Some(Why::ReadFailed),
        3 => Some(Why::WriteFailed),
        4 => Some(Why::GaveUp),
        5 => Some(Why::DialFailed),
        6 => Some(Why::Malformed),
        7 => Some(Why::Unexpected),
        8 => Some(Why::WrongName),
        9 => Some(Why::WrongFlags),
        10 => Some(Why::WrongDigest),
        11 => Some(Why::StatusRefused),
        12 => Some(Why::Refused),
        13 => Some(Why::Crossed),
        14 => Some(Why::Replaced),
        15 => Some(Why::NoMemory),
        _ => None,
    }
}
