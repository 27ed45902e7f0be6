//! Lists the rows, and explains one.

use crate::fault::Fault;
use crate::suite::SuiteFile;
use dist_conformance::{Level, SuiteRow};
use dist_names::escape;
use std::alloc::{AllocError, Global};
use std::fmt::Write;

// What a level means.
fn meaning(level: Level) -> &'static str {
    match level {
        Level::Must => "a sentence, a table or a figure of the guide leaves no choice",
        Level::Should => "the guide's purpose, or that nobody else is held up",
        Level::Otp => "the guide says nothing, and OTP 23 to 29 all do the same",
        Level::May => "releases, or good nodes, differ: what comes is only reported",
    }
}

fn push_row(alloc: Global, text: &mut String, row: &SuiteRow) -> Result<(), AllocError> {
    let id = escape(alloc, row.id.as_slice())?;
    let source = escape(alloc, row.source.as_slice())?;
    let title = escape(alloc, row.title.as_slice())?;
    writeln!(text, "{id:<6} {:<7} {title} ({source})", row.level.name())
}

/// The rows, each on a line, below a line for their section.
pub fn list_of(alloc: Global, suite: &[SuiteFile]) -> Result<String, AllocError> {
    let mut text = String::new(alloc);
    for file in suite {
        let section = &file.section;
        let title = escape(alloc, section.title.as_slice())?;
        writeln!(text, "{:>2}  {title}", section.number)?;
        for row in section.rows.as_slice() {
            push_row(alloc, &mut text, row)?;
        }
    }
    Ok(text)
}

fn begins_row(line: &str, id: &[u8]) -> bool {
    let mut words = line.split_whitespace();
    words.next() == Some("row") && words.next().is_some_and(|word| word.as_bytes() == id)
}

/// Adds the lines of a row of a file: that which begins it, and those behind it that begin with a space, each behind this front.
pub fn push_text(
    alloc: Global,
    text: &mut String,
    file: &str,
    id: &[u8],
    front: &str,
) -> Result<(), AllocError> {
    let mut is_inside = false;
    for line in file.lines() {
        if !line.starts_with(' ') {
            is_inside = begins_row(line, id);
        }
        if is_inside {
            writeln!(text, "{front}{}", escape(alloc, line.as_bytes())?)?;
        }
    }
    Ok(())
}

/// All that is known of the row with this id: its text, and what its level means. NoRow where there is none.
pub fn explanation_of(alloc: Global, suite: &[SuiteFile], id: &str) -> Result<String, Fault> {
    let mut text = String::new(alloc);
    for file in suite {
        for row in file.section.rows.as_slice() {
            if row.id.as_slice() == id.as_bytes() {
                push_text(alloc, &mut text, &file.text, id.as_bytes(), "")?;
                writeln!(text, "{}: {}", row.level.name(), meaning(row.level))?;
            }
        }
    }
    if text.is_empty() {
        return Err(Fault::NoRow);
    }
    Ok(text)
}
