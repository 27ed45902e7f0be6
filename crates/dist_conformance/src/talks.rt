//! The talks of a row.

use crate::actions::step_in;
use crate::faults::{ReadFault, RowError};
use crate::lists::SuiteList;
use crate::rows::RowTalk;
use crate::steps::TalkStep;
use crate::terms::{SuiteNames, TalkTerms};
use crate::texts::words_of;
use dist_names::{ByteString, is_same_text};
use itoa::Buffer;
use std::alloc::{AllocError, Global};

/// What the talks of a row share: the lines of the row behind its head, and how many lines stand before them.
#[derive(Clone, Copy)]
pub struct RowLines<'t> {
    pub alloc: Global,
    pub names: SuiteNames<'t>,
    pub id: &'t [u8],
    pub lines: &'t [&'t [u8]],
    pub before: usize,
}

// The short name of the talk in this place: the row's id and the place, so that each talk has a name of its own, and the same one in
// each run.
fn short_name(row: &RowLines<'_>, place: usize) -> Result<Vec<u8>, AllocError> {
    let mut name = Vec::from_slice(row.alloc, b"0c")?;
    for byte in row.id {
        name.push(if *byte == b'.' { b'-' } else { *byte })?;
    }
    let mut buffer = Buffer::new();
    name.push(b'x')?;
    name.extend_from_slice(buffer.format(place).as_bytes())?;
    name.extend_from_slice(row.names.tag)?;
    Ok(name)
}

// The id of the talk with this value.
fn talk_id(row: &RowLines<'_>, value: &[u8]) -> Result<ByteString, AllocError> {
    let mut id = Vec::from_slice(row.alloc, row.id)?;
    if !value.is_empty() {
        id.push(b'/')?;
        id.extend_from_slice(value)?;
    }
    Ok(ByteString::from_vec(id))
}

// The steps of a talk.
fn steps_of(row: &RowLines<'_>, terms: &TalkTerms<'_>) -> Result<Vec<TalkStep>, RowError> {
    let mut steps = Vec::new(row.alloc);
    let mut number = row.before;
    for line in row.lines {
        number = number.saturating_add(1);
        match step_in(terms, *line) {
            Ok(step) => steps.push(step)?,
            Err(ReadFault::Bad) => return Err(RowError::BadStep(number)),
            Err(ReadFault::NoMemory) => return Err(RowError::NoMemory),
        }
    }
    Ok(steps)
}

// The talk in this place, with a value for a word. All lines are its steps.
fn talk_at(
    row: &RowLines<'_>,
    place: usize,
    variable: &[u8],
    value: &[u8],
) -> Result<RowTalk, RowError> {
    let short = short_name(row, place)?;
    let terms = TalkTerms {
        alloc: row.alloc,
        short: &short,
        names: row.names,
        variable,
        value,
    };
    let steps = SuiteList::from_vec(steps_of(row, &terms)?);
    let id = talk_id(row, value)?;
    Ok(RowTalk { id, steps })
}

/// The talks of a row: one, or one for each value where its first line is `each VAR in VALUE..`.
pub fn talks_in(row: &RowLines<'_>) -> Result<Vec<RowTalk>, RowError> {
    let mut talks = Vec::new(row.alloc);
    if let [first, lines @ ..] = row.lines {
        let words = words_of(row.alloc, *first)?;
        if let [each, variable, between, values @ ..] = words.as_slice()
            && is_same_text(*each, b"each")
            && is_same_text(*between, b"in")
        {
            let before = row.before.saturating_add(1);
            let steps = RowLines {
                lines,
                before,
                ..*row
            };
            for (place, value) in values.iter().enumerate() {
                talks.push(talk_at(&steps, place, *variable, *value)?)?;
            }
            return Ok(talks);
        }
    }
    // A word that no text has.
    talks.push(talk_at(row, 0, b"$", b"")?)?;
    Ok(talks)
}
