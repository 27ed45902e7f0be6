//! The JSON objects, each as a line: of a node, a pair, a connection that was taken, and what can be said of several nodes.
//!
//! Text from another machine or the command line is escaped before, so that it is printable both in the line and in the value that a
//! JSON reader makes of it.

mod callers;
mod many;
mod member;
mod nodes;
mod parts;
mod values;
mod watched;

pub use callers::caller_object;
pub use many::{left_out_object, more_left_out_object, pair_object, summary_object};
pub use member::{FORM, Value, object_line};
pub use nodes::{group_object, object_of};
pub use parts::Judged;
pub use watched::{change_object, latency_object};
