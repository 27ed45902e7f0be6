//! The distribution flags by name: which bit each has, which of them a release of Erlang/OTP announces and requires of a
//! peer, and to which release a node's flags belong.
//!
//! No input or output, and no connections.
#![tactic(auto)]

mod dflag;
mod release;

pub use dflag::Dflag;
pub use release::{
    Release, ReleaseShown, is_refused_by_all, missing, oldest_refusal, release_of, release_shown,
    with_mandatory,
};
