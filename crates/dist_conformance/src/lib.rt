//! A suite of rows that nodes of Erlang's distribution and port mappers are held against: what a row says, what is said in its steps, and
//! what it means that this came.
//!
//! A text is read into the rows of a section ([`read_section`]), families written out as talks. Who plays a talk asks for the bytes of a
//! step ([`bytes_to_say`]), and hands all bytes of a connection, its end and the time to the judgement ([`judge`]). By its verdict and the
//! level of its row a talk counts for the exit status or does not ([`is_counted`]). No sockets, no clock and no randomness: a transcript that
//! is kept can be judged again.
#![tactic(auto)]

mod actions;
mod bodies;
mod checks;
mod demands;
mod digests;
mod faults;
mod heads;
mod judging;
mod laws;
mod lists;
mod messages;
mod outcomes;
mod packets;
mod patterns;
mod reading;
mod rows;
mod say;
mod shapes;
mod steps;
mod talks;
mod terms;
mod texts;
mod verdicts;
mod words;

pub use digests::ReplyDigest;
pub use faults::RowError;
pub use judging::{Judgement, judge};
pub use laws::{
    challenge_shape, challenges_are_spelled, decided_in_the_end, deviates_for_good,
    kept_by_a_match, matches_for_good,
};
pub use lists::SuiteList;
pub use outcomes::{Deviation, Observed, Passage, registered_port};
pub use patterns::{Check, NamesCheck, PacketCheck, Pattern, Test};
pub use reading::read_section;
pub use rows::{Level, Marks, RowTalk, Section, SectionKind, SuiteRow};
pub use say::{Learned, bytes_to_say};
pub use shapes::{FieldForm, FieldKey, Framing, Shape};
pub use steps::{Action, Demand, SaidField, SaidPart, SaidValue, Saying, TalkStep};
pub use terms::SuiteNames;
pub use verdicts::{TalkVerdict, is_counted};
