//! The heads of sections and of rows.

use crate::faults::ReadFault;
use crate::lists::SuiteList;
use crate::rows::{Level, Marks, Section, SectionKind, SuiteRow};
use crate::texts::{split, words_of};
use crate::words::{LineWords, meaning_of, read_number};
use dist_names::{ByteString, is_same_text};
use std::alloc::Global;

const LEVELS: [(&str, Level); 4] = [
    ("must", Level::Must),
    ("should", Level::Should),
    ("otp", Level::Otp),
    ("may", Level::May),
];

const KINDS: [(&str, SectionKind); 2] = [
    ("node", SectionKind::Node),
    ("mapper", SectionKind::Mapper),
];

// The words before a title, and the title, which stands in quotes at the end of the line.
fn title_of<'t>(alloc: Global, line: &'t [u8]) -> Result<(Vec<&'t [u8]>, &'t [u8]), ReadFault> {
    let parts = split(alloc, line, b'"')?;
    match parts.as_slice() {
        [front, title, behind] if behind.is_empty() => Ok((words_of(alloc, *front)?, *title)),
        _ => Err(ReadFault::Bad),
    }
}

/// A section without its rows.
pub fn section_in(alloc: Global, line: &[u8]) -> Result<Section, ReadFault> {
    let (words, title) = title_of(alloc, line)?;
    match words.as_slice() {
        [word, number, kind] if is_same_text(*word, b"section") => Ok(Section {
            number: read_number(*number, u32::MAX)?,
            kind: meaning_of(&KINDS, *kind)?,
            title: ByteString::from_slice(alloc, title)?,
            rows: SuiteList::from_vec(Vec::new(alloc)),
        }),
        _ => Err(ReadFault::Bad),
    }
}

fn marks_in(alloc: Global, words: &[&[u8]]) -> Result<Marks, ReadFault> {
    let mut words = LineWords::new(alloc, words);
    let marks = Marks {
        since: words.number(b"since", 0, u32::MAX)?,
        limit: words.number(b"slow", 5000, u32::MAX)?,
        harsh: words.mark(b"harsh"),
        alone: words.mark(b"alone"),
        first: words.mark(b"first"),
        tries: words.number(b"tries", 1, u32::MAX)?,
    };
    words.finish(marks)
}

/// A row without its talks.
pub fn head_in(alloc: Global, line: &[u8]) -> Result<SuiteRow, ReadFault> {
    let (words, title) = title_of(alloc, line)?;
    match words.as_slice() {
        [word, id, level, source, marks @ ..] if is_same_text(*word, b"row") => Ok(SuiteRow {
            id: ByteString::from_slice(alloc, *id)?,
            level: meaning_of(&LEVELS, *level)?,
            source: ByteString::from_slice(alloc, *source)?,
            title: ByteString::from_slice(alloc, title)?,
            marks: marks_in(alloc, marks)?,
            talks: SuiteList::from_vec(Vec::new(alloc)),
        }),
        _ => Err(ReadFault::Bad),
    }
}
