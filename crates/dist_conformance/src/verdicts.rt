//! Verdicts of talks.

ghost use Rattle.std.specs.Prelude.{◌≡◌};
ghost use Rattle.dist_conformance.specs.Verdicts.{rank_of, is_counted};

use crate::rows::Level;

/// What a talk comes to, from the best to the worst. Those that count for the status are the last two.
#[derive(Clone, Copy, PartialEq, Eq)]
pub enum TalkVerdict {
    /// It was not tried.
    Skipped,
    /// Its row is of level `may`: what came is only reported.
    Noted,
    /// What was wanted came.
    Kept,
    /// What is on the way to it did not come.
    Blocked,
    /// Something came that is harmless, and not to the letter.
    Loose,
    /// Anything else came.
    Deviates,
}

impl TalkVerdict {
    /// Its word in reports.
    pub fn name(self) -> &'static str {
        match self {
            TalkVerdict::Skipped => "skipped",
            TalkVerdict::Noted => "noted",
            TalkVerdict::Kept => "kept",
            TalkVerdict::Blocked => "blocked",
            TalkVerdict::Loose => "loose",
            TalkVerdict::Deviates => "deviates",
        }
    }

    /// How bad it is. The verdict of a row is the worst of its talks.
    pub fn rank(self) -> u8
        ensures { result ≡ rank_of self }
    {
        self as u8
    }
}

/// Whether a talk with this verdict makes the exit status 1, in a row of this level: one of level `must` that deviates; `strict`: also any
/// other but those of level `may` that deviates or is loose.
pub fn is_counted(level: Level, verdict: TalkVerdict, strict: bool) -> bool
    ensures { result ≡ is_counted strict level verdict }
{
    match (level, verdict) {
        (Level::May, _) => false,
        (Level::Must, TalkVerdict::Deviates) => true,
        (_, TalkVerdict::Deviates | TalkVerdict::Loose) => strict,
        _ => false,
    }
}
