//! The table of a node's peers: which ends of connections each peer holds, and what is answered to a peer's name that
//! comes while an end holds that peer already.
//!
//! No input or output, no clock, no randomness, no messages. The caller reports to the table what happened (a dial
//! began, a name came, an end came up or was lost) and does what the verdict says: closing an end is the caller's.
//!
//! Source of the verdicts: ERTS User's Guide, Distribution Protocol, Distribution Handshake, the status messages.
#![tactic(auto)]

mod by_name;
mod entry;
mod peers;
mod verdict;

pub use entry::{EndId, Entry, PeersError, Ruling, Verdict};
pub use peers::Peers;
pub use verdict::replaced_end;
