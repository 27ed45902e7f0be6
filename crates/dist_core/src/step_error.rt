//! Why a step is refused.
ghost use Rattle.std.specs.Prelude.{◌≡◌};
ghost use Rattle.dist_core.specs.Words.{refusal_name};

use dist_core_ends::Why;
use dist_peers::Entry;
use thiserror::Error;

/// Why a step is refused. Each leaves the node unchanged. The variants stand in the order of refusals: the first that holds is
/// returned. Our own choice; the ERTS User's Guide has no such machine.
#[derive(Clone, Copy, Debug, PartialEq, Eq, Error)]
pub enum StepError {
    /// The number was never given out. The caller's fault, like the four that follow.
    #[error("no such end")]
    NoSuchEnd,
    /// The end is closed, for this cause; `Ended` also where the node forgot the cause.
    #[error("end is closed")]
    Gone(Why),
    /// The end is open but does not take this event: `Opened` where no connection is awaited, `Frame` before there is one or
    /// once the end is up, `Tick` before it is up.
    #[error("end takes no such event now")]
    WrongPhase,
    /// The peer that was to be dialled is not idle, and has this entry.
    #[error("peer is not idle")]
    Busy(Entry),
    /// The node has made as many steps that reported no loss as its limits allow; for a new end also: it has given out as many ends
    /// as they allow.
    #[error("node has made all its steps")]
    Spent,
    /// For a dial, there are as many entries as the node's limits allow; for any new end, as many open ends as they allow.
    #[error("node is full")]
    Full,
    /// Nothing else refuses the step, and no memory was left for it.
    #[error("out of memory")]
    NoMemory,
}

impl StepError {
    /// The variant's name, as a program prints it.
    pub fn name(self) -> &'static str
        ensures { result.now ≡ refusal_name self }
    {
        match self {
            StepError::NoSuchEnd => "NoSuchEnd",
            StepError::Gone(_) => "Gone",
            StepError::WrongPhase => "WrongPhase",
            StepError::Busy(_) => "Busy",
            StepError::Spent => "Spent",
            StepError::Full => "Full",
            StepError::NoMemory => "NoMemory",
        }
    }
}
