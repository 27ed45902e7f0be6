//! Nodes that listen and are registered, what the threads of a run are given, sockets and how long they are waited for, seats,
//! challenges, a port mapper, and the nodes closed and compared with the plan.
//!
//! No thread is started here: the crate of the run does that. What a node does stands in the crates below.
#![tactic(auto)]

mod challenges;
mod descriptors;
mod end_marks;
mod ending;
mod host;
mod mapping;
mod openings;
mod order_fault;
mod orders;
mod patient_stream;
mod run_error;
mod seats;
mod setups;
mod sockets;
mod starting;
mod waiting;

pub use challenges::Challenges;
pub use descriptors::{Places, most_descriptors, places_of};
pub use end_marks::EndMarks;
pub use ending::{Ended, Ran, Rest, end_run, judge};
pub use host::{Host, MapperAccess, start};
pub use mapping::{mapper_limits, serve_mapper};
pub use order_fault::{OrderFault, OrderRefusal};
pub use orders::are_obeyed;
pub use patient_stream::PatientStream;
pub use run_error::RunError;
pub use seats::{Pool, Shares};
pub use setups::are_of_plans;
pub use sockets::{
    LinkStream, LocalListener, accept, connect_to_port, end_reads, link_of, listen, say_goodbye,
    socket_of, stop_listening, wait_for_connection,
};
pub use starting::{Pools, Started, start_all};
pub use waiting::TURNS_AT_ONCE;
