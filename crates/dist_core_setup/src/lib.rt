//! What a node's setup decides, and what the node sends: the flags that it announces and requires, its digests, the checks
//! on a peer's name, and the frames of each message.
//!
//! No input or output, no clock, no randomness, and no connections: the same setup and the same numbers give the
//! same frames.
#![tactic(auto)]

mod checks;
mod laws;
mod limits;
mod saying;
mod setup;
mod version;

pub use checks::{
    announced_by, form_of_old, good_name, is_refused, knows_six, opens_new, own_digest, required_of,
};
pub use dist_secret::Cookie;
pub use laws::{
    announced_flags_fit, flags_show_versions, low_halves_suffice, messages_can_be_said,
    other_digests_stay, what_is_said_is_read,
};
pub use limits::Limits;
pub use saying::{ack_frame, challenge_frame, greeting, name_frame, reply_frame, status_frame};
pub use setup::{NameList, Setup};
pub use version::Version;
