//! What the programs share at their start: the words of the command line, the variables of the environment, the port of the port
//! mapper, the cookie, addresses, random numbers, connections with their limits, the time of each step on the way to a node, the
//! sentences that refuse a word, a variable or a cookie's file, and the line and status of a fault.
//!
//! Each of these has one rule here, for all programs. What a program does then is its own, and so are the texts of its other faults.
#![tactic(auto)]

mod budget;
mod connecting;
mod cookie_fault;
mod cookie_file;
mod drawing;
mod epmd_port;
mod host_error;
mod lookup;
mod options;
mod reporting;
mod sentences;
mod text_error;
mod variables;
mod word_fault;

pub use budget::{Budget, TimedStep};
pub use connecting::{
    ANSWER_SECONDS, CONNECT_SECONDS, at_port, connect, connect_here, deadline_in, one_turn,
    talk_here, talk_over, this_host,
};
pub use cookie_fault::CookieFault;
pub use cookie_file::{cookie_at, cookie_in, find_cookie, home_cookie, is_private, open_cookie};
pub use drawing::draw;
pub use epmd_port::{MAPPER_PORT, mapper_port, option_number, port_in};
pub use host_error::HostError;
pub use lookup::{Addresses, Resolving, lookup_host, without_brackets};
pub use options::{command_line, option, with_options};
pub use reporting::report;
pub use sentences::{name_in, name_sentence, parser_sentence, with_word};
pub use text_error::TextError;
pub use variables::{read_words, texts, variable, words_of};
pub use word_fault::WordFault;
