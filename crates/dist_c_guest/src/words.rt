//! The words of codes and causes.
ghost use Rattle.std.specs.Prelude.{◌≡◌};
ghost use Rattle.dist_c_guest.specs.Words.{code_word};

pub fn code_word(code: u32) -> &'static str
    ensures { result.now ≡ code_word code }
{
    match code {
        0 => "Ok",
        1 => "NotANode",
        2 => "InUse",
        3 => "NoMemory",
        4 => "NoRoom",
        5 => "Awaits",
        6 => "NoSuch",
        8 => "TooLong",
        9 => "PeerInUse",
        10 => "NoSuchEnd",
        11 => "Gone",
        12 => "WrongPhase",
        13 => "Busy",
        14 => "Spent",
        15 => "Full",
        16 => "OpenEnds",
        17 => "ShownEnd",
        20 => "NameTooShort",
        21 => "NameTooLong",
        22 => "NameBadByte",
        23 => "NameBadAt",
        30 => "CookieEmpty",
        31 => "CookieBadByte",
        32 => "CookieTooLong",
        40 => "Malformed",
        41 => "Short",
        42 => "Trailing",
        50 => "HalfFlags",
        _ => "Unknown",
    }
}
