//! What a node returns for an event.

use dist_core_ends::{UpRecord, Why};
use dist_names::{ByteString, NodeName};
use dist_peers::EndId;

/// What else a step did.
#[derive(Debug, Drop, PartialEq, Eq)]
pub enum Note {
    /// Nothing to note.
    Nothing,
    /// A name passed all checks, also where `nok` was sent to it.
    NameTaken {
        /// The name.
        peer: NodeName,
        /// The own dialled end that this name doomed, if any.
        dooms: Option<EndId>,
    },
    /// A reply to a challenge was sent.
    ReplySaid,
}

/// What a step returns.
#[derive(Debug, Drop)]
pub struct Reply {
    /// The event's end, or the one that was given out.
    pub end_: EndId,
    /// What to write on that end's connection: whole frames, or one packet of no bytes.
    pub say: ByteString,
    /// The end that the step closed, at most one, and why.
    pub closed: Option<(EndId, Why)>,
    /// The record of the event's end, where the step brought it up.
    pub up: Option<UpRecord>,
    /// What else the step did.
    pub note: Note,
}
