//! What a capture shows of Erlang's distribution: what was said on each connection, how it ended, and what that means.
//!
//! The conversations of a capture are collected and judged one by one (dist_conversation). Here they are RELATED: the attempts that were judged
//! are compared with each other; and PRINTED, with the first exit status that is not 0.
//!
//! It opens no socket and has no clock: it reads the segments of TCP in a capture, and prints lines of text.
#![tactic(auto)]

mod connections;
mod dials;
mod journal;
mod left_out;
mod lines;
mod nodes;
mod objects;
mod reading;
mod say;
mod summary;

pub use reading::read_capture;
