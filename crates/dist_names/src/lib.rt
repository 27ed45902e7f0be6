//! The words that every layer above shares: node names and their order, flags by halves, creations, rows of bytes, which
//! bytes show, numbers in digits, and bytes of strangers as text that is safe to print.
//!
//! No input or output, no clock, no randomness. Nothing here knows of connections or messages.
#![tactic(auto)]

mod byte_string;
mod creation;
mod escaping;
mod flags;
mod front;
mod laws;
mod name;
mod name_error;
mod numbers;
mod order;
mod plain;

pub use byte_string::ByteString;
pub use creation::Creation;
pub use escaping::{escape, escape_lines, quote};
pub use flags::Flags;
pub use laws::{order_of_names, parts_of_names, values_of_flags};
pub use name::NodeName;
pub use name_error::NameError;
pub use numbers::{number_16, number_32, number_64, number_in};
pub use plain::{
    are_printable, are_visible, host_part, is_printable, is_same_text, is_visible, short_part,
};
