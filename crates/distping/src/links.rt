//! How distping meets a node: it dials one, at each address of the node's host until it is found, or takes one connection.
//!
//! To dial is to ask the host's port mapper where the node listens, to connect, and to talk, each step within its time. The port mapper
//! can also be asked for all names that it knows. Each step is printed, and the result is returned with a verdict. Which nodes are
//! dialled, what is printed of several, and the line and the object of a connection are the program's.

mod attempt;
mod front;
mod listening;
mod looking;
mod mapper;
mod open_stream;
mod outcomes;
mod own_setup;
mod probing;
mod speaking;
mod talking;
mod tries;
mod waiting;

pub use listening::take_connection;
pub use mapper::Names;
pub use outcomes::{no_dial, no_host};
pub use own_setup::{draw_challenge, setup_of};
pub use probing::{Census, ask_census, probe};
