//! Why an end is closed.
ghost use Rattle.std.specs.{Prelude.◌≡◌, Prelude.IfSome, Prelude.Some, List.find};
ghost use Rattle.dist_core_ends.specs.{declared.why.Why.Why, Words.why_word, Words.has_word};

use std::error::Error;
use std::fmt;

/// Why an end is closed. Whoever carries the connection reports the first five and the last, as the cause of a loss; the node
/// itself finds the others.
///
/// Source of the causes: our own choice; the ERTS User's Guide names none. When an end that was up is closed, an Erlang node
/// sends `nodedown` to its processes: `connection_closed` for `Ended`, `ReadFailed` and `WriteFailed`, `disconnect` for
/// `GaveUp`. It reports to nobody that an end is closed that never was up.
#[derive(Clone, Copy, Debug, PartialEq, Eq)]
pub enum Why {
    /// The other side ended the connection.
    Ended,
    /// A read failed.
    ReadFailed,
    /// A write failed, or took no byte.
    WriteFailed,
    /// Whoever carries the connection gave it up.
    GaveUp,
    /// No connection came about.
    DialFailed,
    /// A body is not a message of the side that sent it.
    Malformed,
    /// The message is not the one that the end awaits.
    Unexpected,
    /// The challenge carries another name than the one dialled.
    WrongName,
    /// A required flag is absent from a challenge or a complement.
    WrongFlags,
    /// The digest is not that of the own cookie and the own challenge.
    WrongDigest,
    /// The other side sent `nok`, `not_allowed` or `false`.
    StatusRefused,
    /// The name failed a check, and `not_allowed` was sent.
    Refused,
    /// The two nodes dialled each other, and the other attempt goes on.
    Crossed,
    /// A later connection of the same peer stands in its place.
    Replaced,
    /// Memory ran out at whoever carries the connection.
    NoMemory,
}

impl Why {
    /// The variant's name, as a program prints it.
    pub fn name(self) -> &'static str
        ensures { result.now ≡ why_word self }
    {
        match self {
            Why::Ended => "Ended",
            Why::ReadFailed => "ReadFailed",
            Why::WriteFailed => "WriteFailed",
            Why::GaveUp => "GaveUp",
            Why::DialFailed => "DialFailed",
            Why::Malformed => "Malformed",
            Why::Unexpected => "Unexpected",
            Why::WrongName => "WrongName",
            Why::WrongFlags => "WrongFlags",
            Why::WrongDigest => "WrongDigest",
            Why::StatusRefused => "StatusRefused",
            Why::Refused => "Refused",
            Why::Crossed => "Crossed",
            Why::Replaced => "Replaced",
            Why::NoMemory => "NoMemory",
        }
    }

    /// The cause for which a program prints this word.
    pub fn of_name(word: &[u8]) -> Option<Why>
        ensures found { IfSome result (λ why. why_word why ≡ word.now) }
        ensures every { (why : Why) → why_word why ≡ word.now → result ≡ Some why }
    {
        first_with_word(
            word,
            &[
                Why::Ended,
                Why::ReadFailed,
                Why::WriteFailed,
                Why::GaveUp,
                Why::DialFailed,
                Why::Malformed,
                Why::Unexpected,
                Why::WrongName,
                Why::WrongFlags,
                Why::WrongDigest,
                Why::StatusRefused,
                Why::Refused,
                Why::Crossed,
                Why::Replaced,
                Why::NoMemory,
            ],
        )
    }

    // Whether a program prints this word for the cause.
    fn has_word(self, word: &[u8]) -> bool
        ensures { result ≡ has_word word.now self }
    {
        self.name().as_bytes() == word
    }
}

fn sentence(why: Why) -> &'static str {
    match why {
        Why::Ended => "the other side ended the connection",
        Why::ReadFailed => "a read failed",
        Why::WriteFailed => "a write failed",
        Why::GaveUp => "the connection was given up",
        Why::DialFailed => "no connection came about",
        Why::Malformed => "the other side said what is no message",
        Why::Unexpected => "the other side said a message that was not awaited",
        Why::WrongName => "a node of another name answered",
        Why::WrongFlags => "the other side lacks a required flag",
        Why::WrongDigest => "the other side has another cookie",
        Why::StatusRefused => "the other side refused the connection",
        Why::Refused => "the other side's name was refused",
        Why::Crossed => "the other side's dial goes on in its place",
        Why::Replaced => "a later connection of the same peer took its place",
        Why::NoMemory => "out of memory",
    }
}

impl fmt::Display for Why {
    fn fmt<W: fmt::Write>(&self, f: &mut fmt::Formatter<W>) -> fmt::Result {
        f.write_str(sentence(*self))
    }
}

impl Error for Why {}

// The first of these causes that has this word.
fn first_with_word(word: &[u8], whys: &[Why]) -> Option<Why>
    ensures { result ≡ find (has_word word.now) whys.now }
{
    whys.iter().copied().find(|why| why.has_word(word))
}
