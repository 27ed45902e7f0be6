//! The rows of a section, as a text has them.

use crate::faults::{ReadFault, RowError};
use crate::heads::{head_in, section_in};
use crate::lists::SuiteList;
use crate::rows::{Section, SuiteRow};
use crate::talks::{RowLines, talks_in};
use crate::terms::SuiteNames;
use crate::texts::split;
use std::alloc::Global;

// The row of these lines, behind so many: its head, and its steps.
fn row_of(
    alloc: Global,
    names: SuiteNames<'_>,
    lines: &[&[u8]],
    before: usize,
) -> Result<SuiteRow, RowError> {
    let number = before.saturating_add(1);
    let [head, lines @ ..] = lines else {
        return Err(RowError::BadRow(number));
    };
    let mut row = match head_in(alloc, *head) {
        Ok(row) => row,
        Err(ReadFault::Bad) => return Err(RowError::BadRow(number)),
        Err(ReadFault::NoMemory) => return Err(RowError::NoMemory),
    };
    let body = RowLines {
        alloc,
        names,
        id: row.id.as_slice(),
        lines,
        before: number,
    };
    let talks = talks_in(&body)?;
    row.talks = SuiteList::from_vec(talks);
    Ok(row)
}

// The rows of these lines, behind so many: two spaces begin each line of a row but its head.
fn rows_of(
    alloc: Global,
    names: SuiteNames<'_>,
    lines: &[&[u8]],
    before: usize,
) -> Result<Vec<SuiteRow>, RowError> {
    let mut rows = Vec::new(alloc);
    let mut before = before;
    for row in lines.chunk_by(|_, next| next.starts_with(b"  ")) {
        rows.push(row_of(alloc, names, row, before)?)?;
        before = before.saturating_add(row.len());
    }
    Ok(rows)
}

/// The section that a text is, or its first bad line.
///
/// A text is lines, and each ends in a line feed. Lines that begin with `#` may stand in front. Then comes `section NUMBER KIND "TITLE"`, and
/// behind it rows: a head `row ID LEVEL SOURCE "TITLE"`, and lines that two spaces begin. Behind the source the marks `since=N`, `slow=MS`,
/// `harsh`, `alone`, `first` and `tries=N` may stand, in this order ([`Marks`](crate::Marks)). The first of the lines may be `each VAR in
/// VALUE..`; the others are steps. Words have spaces between them. In steps `$VAR` stands for a value of the family, each of which makes a
/// talk of its own; `$node`, `$host` and `$mapper` for what the suite is played against; `$short` for the talk's own short name: `0c`, the
/// row's id with `-` for its point, `x` and the talk's place in its row, and the tag.
pub fn read_section(
    alloc: Global,
    text: &[u8],
    names: &SuiteNames<'_>,
) -> Result<Section, RowError> {
    let lines = split(alloc, text.strip_suffix(b"\n").unwrap_or(text), b'\n')?;
    let before = lines
        .iter()
        .take_while(|line| line.starts_with(b"#"))
        .count();
    let Some([head, rows @ ..]) = lines.get(before..) else {
        return Err(RowError::BadSection(before));
    };
    let number = before.saturating_add(1);
    let mut section = match section_in(alloc, *head) {
        Ok(section) => section,
        Err(ReadFault::Bad) => return Err(RowError::BadSection(number)),
        Err(ReadFault::NoMemory) => return Err(RowError::NoMemory),
    };
    section.rows = SuiteList::from_vec(rows_of(alloc, *names, rows, number)?);
    Ok(section)
}
