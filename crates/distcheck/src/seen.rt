//! What is seen in the steps of a talk.

ghost use Rattle.std.specs.Prelude.{◌≡◌};
ghost use Rattle.distcheck.specs.Seeing.{end_of, is_heard, is_refusal};

use crate::waiting::{HeardBytes, SaidBytes};

/// What became of the peer's side of a connection.
#[derive(Clone, Copy, PartialEq, Eq)]
pub enum PeerEnd {
    /// It is open.
    Open,
    /// The peer ended it.
    Closed,
    /// It was reset.
    Reset,
}

impl PeerEnd {
    /// Whether nothing more can come.
    pub fn is_over(self) -> bool
        ensures { result ≡ end_of self }
    {
        match self {
            PeerEnd::Open => false,
            PeerEnd::Closed | PeerEnd::Reset => true,
        }
    }

    /// In words; nothing, as long as it is open.
    pub fn text(self) -> &'static str {
        match self {
            PeerEnd::Open => "",
            PeerEnd::Closed => "is closed",
            PeerEnd::Reset => "is reset",
        }
    }
}

/// When a step that listens was over, and how its connection stood then. Times are in milliseconds.
#[derive(Clone, Copy)]
pub struct Timing {
    /// What had become of the connection.
    pub end: PeerEnd,
    /// How long the step had lasted.
    pub elapsed: u32,
    /// How long ago the last byte came, or the step began.
    pub pause: u32,
}

/// What is seen in a step.
#[derive(Drop)]
pub enum StepFact {
    /// It was made: a connection was made or taken, our side of one was ended, or time was spent. In `call none`: nobody came.
    Made,
    /// This was written.
    Said(SaidBytes),
    /// This came.
    Heard(HeardBytes),
    /// A connection came that must not.
    Came,
    /// Nobody listens where the step connects.
    Refused,
    /// The message has no more bytes than the step cuts it to.
    Unsaid,
    /// The step was not made, for this reason: the talk is blocked.
    Failed(&'static str),
}

impl StepFact {
    /// Whether nobody listens.
    pub fn is_refusal(&self) -> bool
        ensures { result ≡ is_refusal self.now }
    {
        matches!(self, StepFact::Refused)
    }

    /// Whether the peer was heard: a byte, or an end.
    pub fn is_heard(&self) -> bool
        ensures { result ≡ is_heard self.now }
    {
        match self {
            StepFact::Heard(heard) => !heard.bytes().is_empty() || heard.timing.end.is_over(),
            _ => false,
        }
    }
}

/// A step that was played.
#[derive(Drop)]
pub struct PlayedStep {
    /// How many milliseconds after the beginning of the talk it was over.
    pub at: u32,
    /// What was seen.
    pub seen: StepFact,
}
