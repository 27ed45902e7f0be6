//! The command `enact`: plays a script with one node, or with a world of several, and prints the result: what a node answers, its table,
//! how the nodes of a world stand, and what each two of them agree on. `run` and `audit` print the last two by the same functions.
//!
//! It opens no file and no socket, and reads no clock: it reads the script from any reader, and prints to any writer. docs/RUNNING.md
//! has the forms of the lines.
#![tactic(auto)]

mod agreements;
mod fooled;
mod nodes;
mod page;
mod playing;
pub mod print;
mod readers;
mod scene;
mod stage;

pub use agreements::print_agreements;
pub use fooled::print_fooled;
pub use nodes::print_nodes;
pub use playing::enact;
pub use scene::NodeScene;
