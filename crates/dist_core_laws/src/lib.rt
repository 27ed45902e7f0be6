//! The laws of a node: what holds of every step of one node and of all its runs, stated for the definitions alone.
//!
//! Nothing here runs. Each law is a function that does nothing, and whose contract is the law: a crate above calls it to use
//! its clauses. The model of several nodes, the driver of a connection and the book of a locked node take from here
//! what they need to know of a step, and cite no lemma of the crate that defines the step.
#![tactic(auto)]

mod forgetting_laws;
mod laws;
mod limit_laws;
mod record_laws;
mod step_laws;

pub use forgetting_laws::{
    a_node_that_forgets_is_alike, alike_nodes_stay_alike, forgetting_changes_no_step,
};
pub use laws::{
    a_crossing_dooms_or_closes, a_doomed_end_never_comes_up, a_loss_closes_one_end,
    a_reply_is_said_to_the_dialled_name, an_end_comes_up_on_the_right_digest,
    another_end_is_replaced, entries_are_whole, open_ends_change, setup_never_changes,
    steps_are_rows,
};
pub use limit_laws::{limits_are_kept, usual_nodes_have_numbers};
pub use record_laws::{acts_keep_ends, cookies_in_use_stay, records_stay_right};
pub use step_laws::{
    a_lost_end_is_closed, a_reply_is_of_its_end, a_step_has_an_effect, a_step_keeps,
    an_up_end_closes_on_a_right_reply, open_ends_after_a_step, two_ends_change_at_most,
};
