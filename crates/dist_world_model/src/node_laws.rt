//! What the laws of worlds take from one node.
ghost use Rattle.dist_world_model.specs.NodeLaws.{NodeLaws};

use dist_core_ends::ends_after_a_change;
use dist_core_laws::{
    a_reply_is_of_its_end, another_end_is_replaced, entries_are_whole, records_stay_right,
    steps_are_rows, two_ends_change_at_most,
};
use dist_core_setup::{
    announced_flags_fit, flags_show_versions, low_halves_suffice, messages_can_be_said,
    what_is_said_is_read,
};
use dist_names::order_of_names;
use dist_secret::length_of_digest;

/// Every node keeps the laws of one step, of names and of what is sent: each is the contract of a crate below, and nothing
/// else is taken from there.
pub fn nodes_keep_laws()
    ensures { NodeLaws }
{
    order_of_names();
    messages_can_be_said();
    what_is_said_is_read();
    announced_flags_fit();
    length_of_digest();
    flags_show_versions();
    low_halves_suffice();
    ends_after_a_change();
    steps_are_rows();
    entries_are_whole();
    a_reply_is_of_its_end();
    another_end_is_replaced();
    two_ends_change_at_most();
    records_stay_right();
}
