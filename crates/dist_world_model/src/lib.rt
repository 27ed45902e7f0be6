//! The model of a world of several nodes, and the agreement theorem: definitions in `specs/`, and functions that do nothing
//! and whose contracts are the laws.
//!
//! A world is a value: the setups of its nodes, all their incarnations, all connections. A list of happenings says what
//! connects, what is delivered, what is lost, which node is restarted and which changes its cookies or the peers that may
//! connect, and `run` of `specs/Run.antt` says what comes of it. Nothing here runs: the code that plays a world stands in the
//! crate above, and promises to do what `run` says.
#![tactic(auto)]

mod happening;
mod laws;
mod node_laws;

pub use happening::Happening;
pub use laws::{
    connections_are_in_order, crossings_are_decided, digests_are_own, ends_are_in_turn,
    frames_are_canonical, holders_are_apart, incarnations_are_in_order, nodes_agree,
    renewed_nodes_begin_again, replies_are_alone, setups_are_own, ups_are_linked,
    worlds_are_reached,
};
pub use node_laws::nodes_keep_laws;
