//! Runs the nodes of a plan on 127.0.0.1: a port mapper, nodes that listen and register, workers that dial, and a thread
//! for each connection.
//!
//! What a node does stands in the crates below, and nothing is printed or read from a file here: these are sockets and
//! threads alone. No thread holds a lock while it reads or writes. Every thread is joined, and every wait has a limit: the run's
//! turns at a listener, a second at a connection, 8 seconds for one that is made. So a run always terminates, by its number of turns.
#![tactic(auto)]

mod accepting;
mod connection;
mod crew;
mod dialling;
mod machine;
mod running;
mod site;
mod threads;

pub use dist_drive::opening_for;
pub use dist_run_hosts::{Challenges, OrderFault, OrderRefusal, Ran, RunError};
pub use machine::Machine;
pub use running::run_plan;
