//! What ends the program early; some of it quotes the user's words in its line.

ghost use Rattle.std.specs.Prelude.{◌≡◌, IfErr, IfOk};
ghost use Rattle.distping_words.specs.Faults.{refusal_of, refusal_status};
ghost use Rattle.distping_words.specs.declared.fault.Fault.TheVariants as fault;
ghost use Rattle.distping_words.specs.declared.refusal.Refusal.TheVariants as refusal;

use crate::fault::Fault;
use dist_program::{CookieFault, WordFault};
use dist_secret::CookieError;
use std::alloc::AllocError;
use std::fmt;

/// What ends the program before a verdict. Its `Display` comes after `distping: ` on standard error.
#[derive(Drop)]
pub enum Refusal {
    /// The cookie's file gives no cookie, for this cause.
    NoCookie(CookieFault),
    /// The cookie's file cannot be read: the sentence about it, safe to print.
    CookieUnread(String),
    /// A word of the command line, a file that it names, or ERL_EPMD_PORT, is bad: the sentence about it, safe to print.
    BadWord(String),
    /// Another fault.
    Fault(Fault),
}

/// The refusal of a word by this sentence about it, if there was memory for the sentence. What it quotes is escaped, so that all of it is
/// safe to print.
pub fn refuse(sentence: Result<String, AllocError>) -> Refusal
    ensures ok { IfOk sentence (λ sentence. result ≡ Refusal.BadWord sentence) }
    ensures err { IfErr sentence (λ _. result ≡ Refusal.Fault Fault.NoMemory) }
{
    match sentence {
        Ok(sentence) => Refusal::BadWord(sentence),
        Err(AllocError) => Refusal::Fault(Fault::NoMemory),
    }
}

// What is printed of a file that has no cookie, if its bytes are to blame.
fn text_of_bytes(fault: &CookieFault) -> Option<&'static str> {
    match fault {
        CookieFault::NoCookie(CookieError::BadByte) => Some(
            "BadByte: the cookie's file has a byte that no Erlang cookie may have, outside 0x20 to 0x7E, or something after the cookie's line",
        ),
        CookieFault::NoCookie(CookieError::Empty) => Some(
            "Empty: the cookie's file has no byte, or begins with one that no Erlang cookie may have, as the byte order mark of UTF-8 does",
        ),
        _ => None,
    }
}

impl fmt::Display for Refusal {
    fn fmt<W: fmt::Write>(&self, f: &mut fmt::Formatter<W>) -> fmt::Result {
        match self {
            Refusal::NoCookie(fault) => match text_of_bytes(fault) {
                Some(text) => f.write_str(text),
                None => write!(f, "{fault}"),
            },
            Refusal::CookieUnread(sentence) | Refusal::BadWord(sentence) => {
                f.write_str(sentence.as_str())
            }
            Refusal::Fault(fault) => write!(f, "{fault}"),
        }
    }
}

impl Refusal {
    /// The exit status: 2 if the command line is at fault, else 1.
    pub fn status(&self) -> u8
        ensures { result ≡ refusal_status self.now }
    {
        match self {
            Refusal::NoCookie(_) | Refusal::CookieUnread(_) => 1,
            Refusal::BadWord(_) => 2,
            Refusal::Fault(fault) => fault.status(),
        }
    }
}

impl From<Fault> for Refusal {
    ghost from_gives = { λ it made. made ≡ refusal.Fault it };

    fn from(fault: Fault) -> Refusal {
        Refusal::Fault(fault)
    }
}

impl From<CookieFault> for Refusal {
    ghost from_gives = { λ it made. made ≡ refusal.NoCookie it };

    fn from(fault: CookieFault) -> Refusal {
        Refusal::NoCookie(fault)
    }
}

impl From<WordFault> for Refusal {
    ghost from_gives = { λ it made. made ≡ refusal_of it };

    fn from(fault: WordFault) -> Refusal {
        match fault {
            WordFault::Bad(sentence) => Refusal::BadWord(sentence),
            WordFault::NoMemory => Refusal::Fault(Fault::NoMemory),
        }
    }
}

impl From<AllocError> for Refusal {
    ghost from_gives = { λ _ made. made ≡ refusal.Fault fault.NoMemory };

    fn from(_error: AllocError) -> Refusal {
        Refusal::Fault(Fault::NoMemory)
    }
}
