//! What two sides said to each other in a capture, and what that comes to.
//!
//! Two steps. COLLECT: a [`Conversation`] is what the segments between two ports came to, one after another, and the bytes with which each side
//! began. JUDGE: once it is due, what both sides said is read from these bytes, and judged by the table that live probes use (dist_talk); what it
//! carried is returned, and never changes.
//!
//! It opens no socket, has no clock, and prints nothing.
#![tactic(auto)]

mod carried;
mod conversation;
mod flow;
mod judge;
mod laws;
mod looks;
mod mapper;
mod numbers;
mod pieces;
mod said;

pub use carried::{Carried, Conclusion};
pub use conversation::{Conversation, is_long};
pub use flow::{Flow, FlowEnd};
pub use judge::{OtherEnd, judge_at_end, judge_now};
pub use laws::bytes_stand;
pub use looks::Shown;
pub use mapper::{MapperTalk, registration_of};
pub use pieces::Arrival;
