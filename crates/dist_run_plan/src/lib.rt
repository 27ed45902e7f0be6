//! The nodes file: which nodes run, which of them dial whom, and for how long, read from a TOML document.
//!
//! It reads a text and opens nothing: no socket, no file, no thread. The keys and their ranges are our own choice.
#![tactic(auto)]

mod fields;
mod keys;
mod lists;
mod plan;
mod plan_error;
mod reading;

pub use lists::PlanList;
pub use plan::{DialPlan, NodePlan, Plan};
pub use plan_error::PlanError;
pub use reading::plan_of;
