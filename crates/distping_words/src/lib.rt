//! What distping is asked for: the words of its command line, the files of names and of the cookie that they name, and why it refuses them.
//!
//! It reads these two files, and nothing else. It opens no socket, prints nothing but the line of a refusal, and knows no messages of a
//! port mapper or a node.
#![tactic(auto)]

mod command;
mod cookie;
mod fault;
mod refusal;
mod roster;
mod target_words;

pub use command::{Choices, CookieSource, Detail, Instead, Rhythm, Wanted, parse_name, wanted_of};
pub use cookie::cookie_of;
pub use fault::Fault;
pub use refusal::Refusal;
pub use roster::read_roster;
pub use target_words::{GivenPort, given_port};
