//! The report for programs: a JSON object on a line for each talk, and one for all.

use crate::fault::NOT_THERE;
use crate::results::{PlayedRow, VERDICTS, count_in, count_left_out, gone_in};
use crate::running::PlayedSuite;
use crate::transcript::{TranscriptLine, digits_of, lines_of};
use crate::tries::{PlayedTalk, ShownTry};
use dist_names::escape;
use json::Writer;
use std::alloc::{AllocError, Global};

// The version of the form of the objects.
const FORM: usize = 1;

// An object that is being written.
#[derive(Drop)]
struct ObjectWriter {
    alloc: Global,
    out: Writer,
}

impl ObjectWriter {
    fn begin(alloc: Global, name: &str) -> Result<ObjectWriter, AllocError> {
        let out = Writer::new(Vec::new(alloc));
        let mut object = ObjectWriter { alloc, out };
        object.out.begin_object()?;
        object.put_text("type", name)?;
        object.put_number("form", FORM)?;
        Ok(object)
    }

    // Ends it, and adds it to these lines.
    fn end(mut self, lines: &mut String) -> Result<(), AllocError> {
        self.out.end_object()?;
        let Ok(text) = String::from_utf8(self.out.into_inner()) else {
            return Err(AllocError);
        };
        lines.push_str(&text)?;
        lines.push_str("\n")
    }

    fn put_text(&mut self, name: &str, text: &str) -> Result<(), AllocError> {
        self.out.key(name)?;
        self.out.string(text)
    }

    // Writes a member that is a text of a file of rows, which is escaped.
    fn put_bytes(&mut self, name: &str, bytes: &[u8]) -> Result<(), AllocError> {
        let text = escape(self.alloc, bytes)?;
        self.put_text(name, &text)
    }

    fn put_number(&mut self, name: &str, number: usize) -> Result<(), AllocError> {
        self.out.key(name)?;
        self.out.u64(number as u64)
    }

    fn put_line(&mut self, line: &TranscriptLine<'_>) -> Result<(), AllocError> {
        self.out.begin_object()?;
        self.put_number("ms", line.at as usize)?;
        self.put_text("conn", line.letter)?;
        self.put_text("who", if line.is_peer { "peer" } else { "us" })?;
        let hex = digits_of(self.alloc, line.bytes)?;
        self.put_text("hex", &hex)?;
        self.put_text("act", line.act)?;
        self.out.end_object()
    }

    // Writes the verdicts of all tries, and the transcript of one, as members. A talk that is left out has its own verdict in their place.
    fn put_lists(&mut self, played: &PlayedTalk<'_>, one: &ShownTry<'_>) -> Result<(), AllocError> {
        self.out.key("tries")?;
        self.out.begin_array()?;
        for it in &played.tries {
            self.out.string(it.verdict.name())?;
        }
        if played.tries.is_empty() {
            self.out.string(played.verdict().name())?;
        }
        self.out.end_array()?;
        self.out.key("transcript")?;
        self.out.begin_array()?;
        for line in &lines_of(self.alloc, played.steps(), one.played)? {
            self.put_line(line)?;
        }
        self.out.end_array()
    }

    // Writes what a talk is, as members.
    fn put_label(&mut self, played: &PlayedTalk<'_>) -> Result<(), AllocError> {
        let queued = &played.queued;
        self.put_bytes("id", queued.talk.id.as_slice())?;
        self.put_bytes("row", queued.row.id.as_slice())?;
        self.put_text("level", queued.level.name())?;
        self.put_bytes("source", queued.row.source.as_slice())
    }

    // Writes what became of a talk, of which this try is shown, as members.
    fn put_talk(&mut self, played: &PlayedTalk<'_>, one: &ShownTry<'_>) -> Result<(), AllocError> {
        self.put_text("verdict", played.verdict().name())?;
        self.put_text("came", one.why)?;
        self.put_bytes("wanted", played.demand_text(one))?;
        self.put_number("ms", one.took as usize)?;
        self.put_lists(played, one)
    }
}

// The object of all rows: how many have which verdict, how many were not played, and the exit status.
fn summary_of(
    alloc: Global,
    suite: &PlayedSuite<'_>,
    rows: &[PlayedRow<'_>],
    exit: u8,
) -> Result<ObjectWriter, AllocError> {
    let mut object = ObjectWriter::begin(alloc, "summary")?;
    object.put_number("rows", rows.len())?;
    for verdict in &VERDICTS {
        object.put_number(verdict.name(), count_in(rows, *verdict))?;
    }
    object.put_number("not_played", count_left_out(rows, suite.rows))?;
    object.out.key("one_at_a_time")?;
    object.out.boolean(suite.is_one_at_a_time)?;
    object.put_number("exit", usize::from(exit))?;
    Ok(object)
}

/// The objects of all talks, and that of all rows, each on a line. Where nobody listens any more the last says so by its status.
pub fn objects_of(
    alloc: Global,
    suite: &PlayedSuite<'_>,
    rows: &[PlayedRow<'_>],
    exit: u8,
) -> Result<String, AllocError> {
    let mut lines = String::new(alloc);
    for played in &suite.talks {
        let mut object = ObjectWriter::begin(alloc, "talk")?;
        object.put_label(played)?;
        object.put_talk(played, &played.shown_try())?;
        object.end(&mut lines)?;
    }
    let is_gone = gone_in(&suite.talks).is_some();
    let exit = if is_gone { NOT_THERE } else { exit };
    summary_of(alloc, suite, rows, exit)?.end(&mut lines)?;
    Ok(lines)
}
