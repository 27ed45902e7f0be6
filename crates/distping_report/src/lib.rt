//! What distping prints: for people a line for each step, each verdict, and what can be said of several nodes; for programs a JSON
//! object for each result; and the results, as far as they are printed.
//!
//! It only writes what it is given, and reads no socket and no file. Text from another machine or the command line is escaped.
#![tactic(auto)]

mod asked;
mod found;
mod left_out;
mod lines;
mod listed;
mod many_texts;
mod metrics;
mod moment;
mod objects;
mod page;
mod piece;
mod sentences;
mod shown;
mod sink;
mod watched;

pub use asked::{Dial, Listen};
pub use found::{Caller, Found, ProbeOutcome};
pub use left_out::LeftOut;
pub use lines::LineSink;
pub use listed::Listed;
pub use metrics::metrics_text;
pub use moment::{now_seconds, utc_text};
pub use objects::{FORM, Value, object_line};
pub use page::Page;
pub use piece::LinePiece;
pub use shown::MOST_SHOWN;
pub use sink::ResultSink;
pub use watched::{Answers, Seen};
