//! A node's handshakes, as a machine that gets events and returns replies: which ends it has, who is connected to whom, and
//! what is sent on each. `Node::step` takes one event and one number that was drawn, and returns one reply.
//!
//! No input or output, no clock, no randomness, no threads: whoever reads a socket or draws a challenge hands it in.
//! Once an end is up, the packets on its connection are the caller's. Of an end that was closed the node keeps only
//! the cause, until `Node::forget` drops that too.
//!
//! Between two steps the setup can change: the cookies of peers with which no end is up, and which names may connect. If no end is open,
//! the node can begin anew (`Node::renew`).
#![tactic(auto)]

mod accepted;
mod answering;
mod arrival;
mod changing;
mod comparing;
mod copying;
mod dialled;
mod effect;
mod event;
mod events;
mod finding;
mod frames;
mod keeping;
mod node;
mod progress;
mod renewing;
mod reply;
mod step_error;

pub use changing::{Change, ChangeError};
pub use dist_core_ends::{Absent, Attempt, Awaited, End, Phase, Still, UpRecord, Why};
pub use dist_core_setup::{Limits, NameList, Setup, Version};
pub use dist_messages::{Form, Opening};
pub use event::Event;
pub use keeping::Keeper;
pub use node::Node;
pub use reply::{Note, Reply};
pub use step_error::StepError;
