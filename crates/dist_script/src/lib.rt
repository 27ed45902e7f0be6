//! Scripts: the text of a script, its lines and their words, what they say to one node or to a world of several, and what is at
//! fault with them; and the pieces of a line that is printed.
//!
//! Nothing is played here, and no file is opened: the text comes from any reader, and pieces go to any writer. The language is in
//! docs/RUNNING.md.
#![tactic(auto)]

mod events;
mod fault;
mod fields;
mod happenings;
mod input;
mod node_line;
mod pieces;
mod script;
mod words;

pub use fault::{ScriptFault, or_write_failed};
pub use input::read_text;
pub use pieces::{Piece, put, put_bytes, put_piece};
pub use script::{Script, ScriptLine, script_of};
