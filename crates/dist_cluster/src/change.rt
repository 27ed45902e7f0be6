//! What was seen of a target, and the change that is reported.

use dist_names::ByteString;

/// What a probe found.
#[derive(Drop)]
pub struct Observation {
    /// The target's position in the caller's list, from 0.
    pub target: usize,
    /// When it was seen, by the caller's clock and in the caller's unit. The watch only passes it on.
    pub at: u64,
    /// The verdict as it is printed. Two verdicts are the same where their bytes are.
    pub verdict: ByteString,
}

/// A verdict that differs from the one before it.
#[derive(Drop)]
pub struct VerdictChange {
    /// The target's position in the caller's list, from 0.
    pub target: usize,
    /// When the new verdict was seen.
    pub at: u64,
    /// The verdict before. `None` at the first observation of the target.
    pub before: Option<ByteString>,
    /// The new verdict.
    pub after: ByteString,
}
