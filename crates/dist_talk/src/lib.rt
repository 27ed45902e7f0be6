//! What the two sides of a handshake said, and what that comes to: one reading of a handshake for those outside a node.
//!
//! A [`Handshake`] keeps what both sides said, each in order, and how it ended. `verdict` judges it by one table, whether it was spoken as
//! the dialling side, taken as the side that is dialled, or read in a capture. Two calls speak one side of it over any stream. No sockets, no
//! clock, no randomness, and no node: an end that comes up is not kept.
#![tactic(auto)]

mod bodies;
mod content;
mod cookie_check;
mod described;
mod ended;
mod handshake;
mod judging;
mod knocking;
mod names;
mod opened;
mod own_side;
mod reaching;
mod service;
mod speaking;
mod standing;
mod terms;
mod unreached;
mod verdict;
mod words;

pub use bodies::{Came, NextBody, next_body, read_frame_of, tags_of};
pub use content::content_of;
pub use cookie_check::CookieCheck;
pub use described::NodeDescription;
pub use handshake::{Handshake, HandshakeEnd, HowEnded, Missing, SentContent, SentMessage};
pub use knocking::speaks_tls;
pub use names::{NameStyle, is_long_and_short, style_of};
pub use own_side::OwnSide;
pub use reaching::{furthest, is_found, reach};
pub use service::{Service, service_of};
pub use speaking::{other_side, speak};
pub use standing::Standing;
pub use terms::{Terms, Viewpoint};
pub use unreached::{Unreached, mapper_verdict, port_verdict, unreached_of};
pub use verdict::{AwaitedMessage, HandshakeVerdict, NoCookie, Unresolved};
