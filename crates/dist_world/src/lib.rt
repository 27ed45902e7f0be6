//! Plays worlds: several nodes, their incarnations, and the connections between them. Scripts, the audit and `distnode` use it.
//!
//! It has no sockets, no clock and no threads: a list of happenings says what connects, what is delivered, what is lost, which node
//! restarts and which changes its cookies, and the world computes the result.
#![tactic(auto)]

mod agreement;
mod run;
mod scene;
mod setups;
mod world;
mod world_error;

pub use agreement::Agreement;
pub use dist_world_model::Happening;
pub use run::Stopped;
pub use world::World;
pub use world_error::WorldError;
