//! What was said and what came in a talk, in the order of time.

use crate::seen::{PlayedStep, StepFact};
use dist_conformance::{Action, TalkStep};
use hex::encode;
use std::alloc::{AllocError, Global};

/// The most bytes of a piece that are shown.
const MOST: usize = 4096;

/// A line of a transcript.
#[derive(Clone, Copy)]
pub struct TranscriptLine<'a> {
    /// How many milliseconds after the beginning of the talk.
    pub at: u32,
    /// The letter of the connection.
    pub letter: &'static str,
    /// Whether it is the peer's.
    pub is_peer: bool,
    /// The bytes that were written or came.
    pub bytes: &'a [u8],
    /// What happened to the connection then, or nothing.
    pub act: &'static str,
}

/// These bytes in hexadecimal digits, the first 4,096 of them.
pub fn digits_of(alloc: Global, bytes: &[u8]) -> Result<String, AllocError> {
    encode(alloc, &bytes[..bytes.len().min(MOST)])
}

// The connections of a talk.
const LETTERS: [&str; 5] = ["a", "b", "c", "d", "e"];

/// The letter of a connection of a talk.
pub fn letter_of(conn: u8) -> &'static str {
    LETTERS.get(usize::from(conn)).copied().unwrap_or("?")
}

// Whose act a step is that was made, and in words. None where nothing shows.
fn act_of(action: &Action) -> Option<(bool, &'static str)> {
    match action {
        Action::Dial | Action::Ask => Some((false, "connects")),
        Action::Call(None, _) | Action::Start | Action::Take => Some((true, "connects")),
        Action::Half => Some((false, "ends its writing")),
        Action::Close => Some((false, "closes")),
        Action::Reset => Some((false, "resets")),
        _ => None,
    }
}

// The line of a step, by what was seen in it.
fn line_of<'a>(step: &TalkStep, played: &'a PlayedStep) -> Option<TranscriptLine<'a>> {
    let nothing: &'a [u8] = &[];
    let (is_peer, bytes, act) = match &played.seen {
        StepFact::Made => {
            let (is_peer, act) = act_of(&step.action)?;
            (is_peer, nothing, act)
        }
        StepFact::Said(said) => (false, said.bytes.as_slice(), ""),
        StepFact::Heard(heard) => (true, heard.bytes(), heard.timing.end.text()),
        StepFact::Came => (true, nothing, "connects"),
        _ => return None,
    };
    Some(TranscriptLine {
        at: played.at,
        letter: letter_of(step.conn),
        is_peer,
        bytes,
        act,
    })
}

/// The lines of these steps, by what was seen in them.
pub fn lines_of<'a>(
    alloc: Global,
    steps: &[TalkStep],
    played: &'a [PlayedStep],
) -> Result<Vec<TranscriptLine<'a>>, AllocError> {
    let mut lines = Vec::new(alloc);
    for (step, played) in steps.iter().zip(played) {
        if let Some(line) = line_of(step, played) {
            lines.push(line)?;
            if matches!(&played.seen, StepFact::Said(said) if !said.is_whole()) {
                lines.push(TranscriptLine {
                    bytes: &[],
                    act: "cannot write",
                    ..line
                })?;
            }
        }
    }
    Ok(lines)
}
