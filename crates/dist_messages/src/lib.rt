//! The messages of the distribution handshake, as values and as the bodies of frames: `decode` and `encode`.
//!
//! `read_in_place` reads a body without a copy of its name and without memory.
//!
//! `put_..` append the same bodies to bytes that are there, as to an earlier frame, without a copy of the name.
//!
//! It reads and writes bodies alone: no length before them, no check of a name, no state of a connection, no input or output.
#![tactic(auto)]

mod checking;
mod fields;
mod form;
mod laws;
mod message;
mod message_error;
mod message_view;
mod opening;
mod pieces;
mod reading;
mod reading_named;
mod status;
mod writing;
mod writing_named;

pub use form::Form;
pub use laws::{causes_of_refusals, causes_of_writing, one_message, written_is_read};
pub use message::{Message, Side, Status};
pub use message_error::MessageError;
pub use message_view::MessageView;
pub use opening::Opening;
pub use reading::{decode, read_in_place};
pub use writing::{encode, put_ack, put_complement, put_reply, put_status};
pub use writing_named::{put_new_challenge, put_new_name, put_old_challenge, put_old_name};
