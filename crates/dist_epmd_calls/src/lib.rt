//! Carries the messages of the port mapper over a stream: asks the questions of a client, and serves one request.
//!
//! How long a call may go on is a number of turns, and a turn is one read or write, a quiet one among them. Nothing here
//! opens, accepts or closes a connection.
#![tactic(auto)]

mod ask;
mod bodies;
mod laws;
mod lookup_error;
mod mapper;
mod refusals;
mod registration;
mod serve;

pub use ask::{ask_names, lookup};
pub use bodies::{Arrived, read_frame};
pub use laws::registrations_that_are_lent;
pub use lookup_error::LookupError;
pub use mapper::Mapper;
pub use registration::register;
pub use serve::{Served, serve_registry, served_as};
