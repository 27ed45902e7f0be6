//! The incarnations of the nodes of a world, and the connections between them.
//!
//! A connection: what was sent, delivered and taken on it. Two ends send bytes, some of these are delivered at a time, and
//! whole frames are taken; each direction is a queue of what is undelivered and the reader of the end that it comes to.
//! Contracts see neither, but the texts of the definition in `dist_world_model`.
//!
//! An incarnation: a node from its beginning to its end, with a row for each of its ends. It gets an event, makes its
//! step, writes down in its rows what the step did, and what it says is put on the connection of the end that sends it. Which
//! incarnations run is known here; what may happen to several nodes is decided in the crate above. There are no sockets.
#![tactic(auto)]

mod connection;
mod connections;
mod direction;
mod events;
mod incarnations;
mod life;
mod row;
mod stepping;

pub use connections::Connections;
pub use incarnations::Lives;
pub use life::Life;
pub use stepping::{LifeStep, MOST_CONNECTIONS, Occasion, conn_behind};
