//! The ends of a node's connections: what is kept of each, how it stands, and which of them hold a peer.
//!
//! `Ends` is the list of all ends that were ever given out; `change` changes one of them, or gives out one more, and at most
//! one other with it. No messages are read or sent here, and nothing is decided: the caller knows why an end changes.
#![tactic(auto)]

mod ends;
mod known;
mod laws;
mod past_rows;
mod phase;
mod rows;
mod slots;
mod table;
mod why;

pub use ends::Ends;
pub use known::{Attempt, End, Stage, UpRecord};
pub use laws::{ends_after_a_change, no_ends_are_legal};
pub use phase::{Absent, Awaited, Kind, Phase, Still};
pub use why::Why;
