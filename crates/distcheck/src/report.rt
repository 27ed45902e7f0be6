//! The report in lines: one for each section, a block for each row that deviates, is loose or was blocked, and the last lines.

ghost use Rattle.std.specs.Prelude.{IfOk, OnOk, string_bytes};
ghost use Rattle.distcheck.specs.Reports.{BeginsWith, EndsByOutcome, IsMarked, IsOutcome};
ghost use Rattle.distcheck.specs.Rows.{conform, row_verdict};

use crate::command::{CheckOrder, command_of};
use crate::explaining::push_text;
use crate::results::{PlayedRow, VERDICTS, conform, count_in, count_left_out, count_of_level};
use crate::running::PlayedSuite;
use crate::transcript::{TranscriptLine, digits_of, lines_of};
use crate::tries::ShownTry;
use dist_conformance::{Level, TalkVerdict, is_counted};
use dist_names::escape;
use std::alloc::{AllocError, Global};
use std::fmt::Write;

// The levels that count.
const LEVELS: [Level; 3] = [Level::Must, Level::Should, Level::Otp];

// The most hexadecimal digits of a line.
const MOST_SHOWN: usize = 120;

// A report that is being written.
#[derive(Drop)]
struct Report<'a> {
    alloc: Global,
    order: &'a CheckOrder<'a>,
    text: String,
}

impl Report<'_> {
    fn put(&mut self, bytes: &[u8]) -> Result<(), AllocError> {
        let text = escape(self.alloc, bytes)?;
        self.text.push_str(&text)
    }

    // Adds how many rows there are, and how many have which verdict.
    fn put_counts(&mut self, rows: &[PlayedRow<'_>]) -> Result<(), AllocError> {
        write!(self.text, "rows {}", rows.len())?;
        for verdict in &VERDICTS {
            let count = count_in(rows, *verdict);
            if count != 0 {
                write!(self.text, ", {} {count}", verdict.name())?;
            }
        }
        self.text.push_str("\n")
    }

    fn put_sections(&mut self, rows: &[PlayedRow<'_>]) -> Result<(), AllocError> {
        for part in rows.chunk_by(|one, other| one.section().number == other.section().number) {
            if let Some(row) = part.first() {
                write!(self.text, "{:>2}  ", row.section().number)?;
                self.put(row.section().title.as_slice())?;
                self.text.push_str(": ")?;
                self.put_counts(part)?;
            }
        }
        Ok(())
    }

    fn put_said(&mut self, line: &TranscriptLine<'_>) -> Result<(), AllocError> {
        let arrow = if line.is_peer { '<' } else { '>' };
        let hex = digits_of(self.alloc, line.bytes)?;
        let shown = hex.get(..MOST_SHOWN).unwrap_or(&hex);
        let dots = if shown.len() < hex.len() { ".." } else { "" };
        let (letter, act) = (line.letter, line.act);
        writeln!(self.text, "        {letter}{arrow} {shown}{dots} {act}")
    }

    // Adds what was said and came in a talk, the step that was not kept, and what came in its place.
    fn put_try(&mut self, row: &PlayedRow<'_>, one: &ShownTry<'_>) -> Result<(), AllocError> {
        let shown = row.shown;
        for line in &lines_of(self.alloc, shown.steps(), one.played)? {
            self.put_said(line)?;
        }
        self.text.push_str("        step    ")?;
        self.put(shown.demand_text(one))?;
        writeln!(self.text, "\n        came    {}", one.why)
    }

    // Adds what a row rests on; and of one that deviates its text, and the command that plays it alone.
    fn put_source(&mut self, row: &PlayedRow<'_>) -> Result<(), AllocError> {
        let shown = row.shown;
        let queued = shown.queued;
        self.text.push_str("        source  ")?;
        self.put(queued.row.source.as_slice())?;
        self.text.push_str("\n")?;
        if row.verdict() != TalkVerdict::Deviates {
            return Ok(());
        }
        let id = queued.row.id.as_slice();
        push_text(
            self.alloc,
            &mut self.text,
            &queued.file.text,
            id,
            "        | ",
        )?;
        let order = self.order;
        let command = command_of(self.alloc, order.words)?;
        write!(self.text, "        repeat  {command} --only ")?;
        self.put(id)?;
        self.text.push_str("\n")
    }

    // Adds the first line of a row without its mark: its id, its level, its title, and which of its talks have the verdict.
    fn put_heading(&mut self, row: &PlayedRow<'_>) -> Result<(), AllocError> {
        let shown = row.shown;
        let queued = shown.queued;
        let id = escape(self.alloc, queued.row.id.as_slice())?;
        let title = escape(self.alloc, queued.row.title.as_slice())?;
        let level = row.level().name();
        write!(self.text, "{id:<6} {level:<7} {title}")?;
        let all = row.talks.len();
        if all > 1 {
            let talk = escape(self.alloc, queued.talk.id.as_slice())?;
            write!(self.text, " ({} of {all}: {talk})", row.count())?;
        }
        self.text.push_str("\n")
    }

    // The block of a row, without its mark.
    fn block_of(&self, row: &PlayedRow<'_>) -> Result<String, AllocError> {
        let mut block = Report {
            text: String::new(self.alloc),
            ..*self
        };
        block.put_heading(row)?;
        block.put_try(row, &row.shown.shown_try())?;
        block.put_source(row)?;
        Ok(block.text)
    }

    // Adds a block for a row that deviates, is loose or was blocked, behind the mark of its verdict.
    fn put_row(&mut self, row: &PlayedRow<'_>) -> Result<(), AllocError>
        ensures { OnOk result (IsMarked (row_verdict row.now) (string_bytes self.old.text) (string_bytes self.new.text)) }
    {
        let mark = match row.verdict() {
            TalkVerdict::Deviates => "x ",
            TalkVerdict::Loose => "~ ",
            TalkVerdict::Blocked => ". ",
            _ => return Ok(()),
        };
        let block = self.block_of(row)?;
        self.text.push_str(mark)?;
        self.text.push_str(&block)
    }

    // Adds how many rows of each level deviate and are loose.
    fn put_levels(&mut self, rows: &[PlayedRow<'_>]) -> Result<(), AllocError> {
        for level in &LEVELS {
            let deviating = count_of_level(rows, *level, TalkVerdict::Deviates);
            let loose = count_of_level(rows, *level, TalkVerdict::Loose);
            let level = level.name();
            write!(self.text, "{level}: deviates {deviating}, loose {loose}; ")?;
        }
        Ok(())
    }
}

// The ids of rows: with `counted` those because of which the status is 1, else those that deviate.
fn ids_of(
    alloc: Global,
    order: &CheckOrder<'_>,
    rows: &[PlayedRow<'_>],
    counted: bool,
) -> Result<String, AllocError> {
    let mut ids = String::new(alloc);
    for row in rows {
        let is_named = if counted {
            is_counted(row.level(), row.verdict(), order.strict)
        } else {
            row.verdict() == TalkVerdict::Deviates
        };
        if is_named {
            write!(ids, " {}", escape(alloc, row.id())?)?;
        }
    }
    Ok(ids)
}

// How many of all rows were decided, not played and blocked, where the status is 0 and they do not conform.
fn extent_of(
    alloc: Global,
    order: &CheckOrder<'_>,
    rows: &[PlayedRow<'_>],
    all: usize,
) -> Result<String, AllocError> {
    let blocked = count_in(rows, TalkVerdict::Blocked);
    let left_out = count_left_out(rows, all);
    let decided = all.saturating_sub(left_out).saturating_sub(blocked);
    let deviates = count_in(rows, TalkVerdict::Deviates) != 0;
    let below = if deviates { " that counts" } else { "" };
    let mut text = format!(in alloc; "{below} in {decided} of {all} rows; {left_out} not played")?;
    if blocked != 0 {
        write!(text, ", {blocked} blocked")?;
    }
    if deviates {
        let ids = ids_of(alloc, order, rows, false)?;
        write!(text, "; deviates below that:{ids}")?;
    }
    Ok(text)
}

// A line that begins with these words.
fn line_of(alloc: Global, front: &str, rest: &str) -> Result<String, AllocError>
    ensures { IfOk result (λ line. BeginsWith front.now (string_bytes line)) }
{
    let mut line = front.to_owned(alloc)?;
    line.push_str(rest)?;
    line.push_str("\n")?;
    Ok(line)
}

// The last line: what the rows come to, by the exit status.
fn outcome_of(
    alloc: Global,
    order: &CheckOrder<'_>,
    rows: &[PlayedRow<'_>],
    all: usize,
    exit: u8,
) -> Result<String, AllocError>
    ensures { IfOk result (λ line. IsOutcome exit (conform all rows.now) (string_bytes line)) }
{
    if exit != 0 {
        let ids = ids_of(alloc, order, rows, true)?;
        line_of(alloc, "Does not conform:", &ids)
    } else if conform(rows, all) {
        line_of(alloc, "Conforms.", "")
    } else {
        let extent = extent_of(alloc, order, rows, all)?;
        line_of(alloc, "No deviation", &extent)
    }
}

/// The report of these rows.
pub fn report_of(
    alloc: Global,
    order: &CheckOrder<'_>,
    suite: &PlayedSuite<'_>,
    rows: &[PlayedRow<'_>],
    exit: u8,
) -> Result<String, AllocError>
    ensures { IfOk result (λ text. EndsByOutcome exit (conform suite.now.rows rows.now) (string_bytes text)) }
{
    let text = String::new(alloc);
    let mut report = Report { alloc, order, text };
    if suite.is_one_at_a_time {
        let line =
            "The node takes one handshake at a time: all talks were played one after the other.\n";
        report.text.push_str(line)?;
    }
    report.put_sections(rows)?;
    for row in rows {
        report.put_row(row)?;
    }
    report.put_levels(rows)?;
    report.put_counts(rows)?;
    let outcome = outcome_of(alloc, order, rows, suite.rows, exit)?;
    let mut text = report.text;
    text.push_str(&outcome)?;
    Ok(text)
}
