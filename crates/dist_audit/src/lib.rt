//! The audit of closed nodes: whether what their histories say happened in one world, and which world that is.
//!
//! No threads, no sockets, no clock: it reads the histories that were kept under the nodes' locks, plays them again in the
//! order of their tickets, and compares each reply. Where others took part, of whom there is no history, it says in how many
//! connections. It does not repair a history, and does not say who is at fault.
#![tactic(auto)]

mod audit_error;
mod auditing;
mod checks;
mod happenings;
mod laws;
mod lines;
mod links;
mod mentions;
mod pairing;
mod tables;
mod walk;

pub use audit_error::AuditError;
pub use auditing::{Audited, audit, audit_among_others};
pub use laws::lines_have_one_order;
