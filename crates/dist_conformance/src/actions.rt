//! The steps of a talk, as a row writes them.

use crate::demands::demand_in;
use crate::faults::ReadFault;
use crate::lists::SuiteList;
use crate::messages::{info_in, part_of};
use crate::steps::{Action, Saying, TalkStep};
use crate::terms::TalkTerms;
use crate::texts::{first_part, split, words_of};
use crate::words::{LineWords, read_number};
use dist_names::ByteString;

// Messages, with plus signs between them, and how they are written.
fn saying_of(terms: &TalkTerms<'_>, messages: &[u8], way: &[u8]) -> Result<Saying, ReadFault> {
    let mut parts = Vec::new(terms.alloc);
    let messages = split(terms.alloc, messages, b'+')?;
    for message in &messages {
        parts.push(part_of(terms, *message)?)?;
    }
    let words = words_of(terms.alloc, way)?;
    let mut words = LineWords::new(terms.alloc, &words);
    let saying = Saying {
        parts: SuiteList::from_vec(parts),
        cut: words.optional(b"cut")?,
        pieces: words.number(b"pieces", 0, u32::MAX)?,
        pause: words.number(b"pause", 0, u32::MAX)?,
    };
    words.finish(saying)
}

// Messages, and how they are written where a comma stands before that.
fn saying_in(terms: &TalkTerms<'_>, text: &[u8]) -> Result<Saying, ReadFault> {
    let parts = split(terms.alloc, text, b',')?;
    match parts.as_slice() {
        [messages] => saying_of(terms, *messages, b""),
        [messages, way] => saying_of(terms, *messages, *way),
        _ => Err(ReadFault::Bad),
    }
}

// A call, with what is registered for it.
fn call_in(terms: &TalkTerms<'_>, text: &[u8]) -> Result<Action, ReadFault> {
    let words = words_of(terms.alloc, text)?;
    let mut words = LineWords::new(terms.alloc, &words);
    let none = words.optional(b"none")?;
    let info = info_in(terms, &mut words)?;
    words.finish(Action::Call(none, info))
}

// An action: its word, and behind a space what it takes, if it takes something. A call may take nothing.
fn action_in(terms: &TalkTerms<'_>, text: &[u8]) -> Result<Action, ReadFault> {
    if let Some(info) = text.strip_prefix(b"call") {
        return call_in(terms, info);
    }
    match first_part(text, b' ') {
        (b"dial", None) => Ok(Action::Dial),
        (b"ask", None) => Ok(Action::Ask),
        (b"start", None) => Ok(Action::Start),
        (b"take", None) => Ok(Action::Take),
        (b"half", None) => Ok(Action::Half),
        (b"close", None) => Ok(Action::Close),
        (b"reset", None) => Ok(Action::Reset),
        (b"wait", Some(time)) => Ok(Action::Wait(read_number(time, u32::MAX)?)),
        (b"say", Some(messages)) => Ok(Action::Say(saying_in(terms, messages)?)),
        (b"hear", Some(demand)) => Ok(Action::Hear(demand_in(terms, demand)?)),
        (b"want", Some(demand)) => Ok(Action::Want(demand_in(terms, demand)?)),
        (b"tell", Some(time)) => Ok(Action::Tell(read_number(time, u32::MAX)?)),
        _ => Err(ReadFault::Bad),
    }
}

// The connection that a text names by its letter, and what stands behind that. Where it names none it is the first.
fn connection_in(text: &[u8]) -> (u8, &[u8]) {
    match text {
        [letter @ b'b'..=b'e', b':', b' ', rest @ ..] => (*letter - b'a', rest),
        _ => (0, text),
    }
}

/// A step, which is a line that two spaces begin.
pub fn step_in(terms: &TalkTerms<'_>, line: &[u8]) -> Result<TalkStep, ReadFault> {
    let text = terms.expand(line.get(2..).unwrap_or(&[]))?;
    let (conn, rest) = connection_in(&text);
    let action = action_in(terms, rest)?;
    Ok(TalkStep {
        conn,
        text: ByteString::from_vec(text),
        action,
    })
}
