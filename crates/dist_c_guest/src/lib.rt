//! A node between two calls of a caller that speaks another language: the node itself, and the newest reply, from which
//! the caller fetches bytes and names with calls of their own.
//!
//! And all that the library for C, `distnode_c`, does with a node but its exports: a static library is proved whenever it is built, and what
//! stands here is proved once. `DnNode` is the struct in C's memory, and its slot lends the guest; the codes, the structs and the copies are
//! what C sees.
//!
//! And a guard, for a host that shows its peers to others, as an Erlang emulator does: a call that makes no step which would close an end
//! that is up. Such a step is held until the host has reported that end as lost, once its connection is gone; so whatever a host shows is
//! up in its node, and two nodes that show each other agree. Which ends are shown the host knows, and that they are up is the law.
//!
//! No input or output, no clock, no randomness, no buffers: the caller keeps the bytes of a frame until all of it came.
#![tactic(auto)]

mod asking;
mod changes;
mod codes;
mod copies;
mod ends;
mod entries;
mod forms;
mod guard;
mod guest;
mod laws;
mod making;
mod newcomers;
mod parts;
mod reading;
mod replies;
mod slot;
mod statuses;
mod stepping;
mod words;

pub use changes::{allow_text, disallow_text, set_cookie, set_usual_cookie, take_cookie};
pub use codes::{
    AWAITS, IN_USE, NO_MEMORY, NO_SUCH, NOT_A_NODE, OK, TOO_LONG, cookie_code, name_code,
    step_code, why_of,
};
pub use copies::{copy_body, copy_out, sent_bytes};
pub use ends::{DnEnd, renew, report_end, report_oldest};
pub use entries::{DnEntry, report_entry};
pub use forms::{Forms, form_of, has_form};
pub use guard::{guard_body, take_guarded};
pub use guest::Guest;
pub use laws::{
    a_history_is_a_run, any_history_is_a_run, gone_ends_are_closed, guarded_frames_are_told,
    guards_are_runs, guests_agree, guests_are_nodes, one_end_of_a_peer_is_up,
    plain_guests_read_what_came, shown_ends_are_up, shown_peers_agree,
    whole_bodies_are_read_as_they_came,
};
pub use making::{DnPeer, DnSetup, new_guest, report_found, report_next, report_peer};
pub use newcomers::{opening_of, report_room, step_newcomer};
pub use parts::Parts;
pub use reading::{Reading, is_whole};
pub use replies::{DnReply, reply_of};
pub use slot::{DnNode, MARK};
pub use statuses::{newest_status, status_number};
pub use stepping::{foresee_body, foresee_front, step_guest, take_body, take_front};
pub use words::code_word;
