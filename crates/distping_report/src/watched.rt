//! What was observed of a watched node.

use dist_cluster::{Half, LatencySummary};
use dist_names::{ByteString, NodeName};

/// The result of a probe of a watched node.
#[derive(Clone, Copy)]
pub struct Seen<'a> {
    /// The node, the verdict on it, and what else a pair of nodes is judged by.
    pub half: Half<'a>,
    /// How long the probe took, in milliseconds.
    pub latency: u64,
    /// When the probe was done, in seconds since 1970.
    pub at: u64,
}

/// How long a watched node's answers took, in milliseconds.
#[derive(Clone, Copy)]
pub struct Answers<'a> {
    /// The node.
    pub node: &'a NodeName,
    /// How often it was probed.
    pub rounds: u64,
    /// The times of its answers, if it gave any.
    pub summary: Option<LatencySummary>,
}

/// The word of a verdict's text: what comes before its first colon.
pub fn verdict_word_in(text: &ByteString) -> &[u8] {
    let text = text.as_slice();
    text.split(|byte| *byte == b':').next().unwrap_or(text)
}
