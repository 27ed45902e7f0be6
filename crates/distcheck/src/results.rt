//! What became of each row, and of all of them.

ghost use Rattle.std.specs.Prelude.{◌≡◌, option_copied, option_map, IfOk, All, Contains};
ghost use Rattle.std.specs.List.{find, flat_map, list_any};
ghost use Rattle.distcheck.specs.Played.{exit_of, is_counted_talk, met_nobody};
ghost use Rattle.distcheck.specs.Rows.{conform, count_in, count_left_out, row_verdict, IsRow};

use crate::tries::PlayedTalk;
use dist_conformance::{Level, Section, TalkVerdict, is_counted};
use std::alloc::{AllocError, Global};

/// The verdicts, in the order in which they are counted.
pub const VERDICTS: [TalkVerdict; 6] = [
    TalkVerdict::Kept,
    TalkVerdict::Loose,
    TalkVerdict::Deviates,
    TalkVerdict::Noted,
    TalkVerdict::Blocked,
    TalkVerdict::Skipped,
];

/// A row, and what became of its talks.
#[derive(Clone, Copy)]
pub struct PlayedRow<'a> {
    /// Its talks.
    pub talks: &'a [PlayedTalk<'a>],
    /// The first of them with the worst verdict of all.
    pub shown: &'a PlayedTalk<'a>,
}

impl<'a> PlayedRow<'a> {
    /// Its id.
    pub fn id(&self) -> &'a [u8] {
        let shown = self.shown;
        shown.queued.row.id.as_slice()
    }

    /// Its level.
    pub fn level(&self) -> Level
        ensures { result ≡ self.now.shown.now.queued.level }
    {
        self.shown.queued.level
    }

    /// Its section.
    pub fn section(&self) -> &'a Section {
        let shown = self.shown;
        &shown.queued.file.section
    }

    /// Its verdict: the worst of its talks.
    pub fn verdict(&self) -> TalkVerdict
        ensures { result ≡ row_verdict self.now }
    {
        self.shown.verdict()
    }

    /// How many of its talks have its verdict.
    pub fn count(&self) -> usize {
        let verdict = self.verdict();
        self.talks
            .iter()
            .filter(|talk| talk.verdict() == verdict)
            .count()
    }
}

// The row of these talks, of which this is the first.
fn row_of<'a>(talks: &'a [PlayedTalk<'a>], first: &'a PlayedTalk<'a>) -> PlayedRow<'a>
    requires { Contains talks.now first.now }
    ensures talks { result.talks.now ≡ talks.now }
    ensures row { IsRow result }
{
    let mut shown = first;
    for talk in talks {
        if shown.verdict().rank() < talk.verdict().rank() {
            shown = talk;
        }
    }
    PlayedRow { talks, shown }
}

/// How many of these rows have this verdict.
pub fn count_in(rows: &[PlayedRow<'_>], verdict: TalkVerdict) -> usize
    ensures { result ≡ count_in rows.now verdict }
{
    rows.iter().filter(|row| row.verdict() == verdict).count()
}

/// How many of these rows are of this level and have this verdict.
pub fn count_of_level(rows: &[PlayedRow<'_>], level: Level, verdict: TalkVerdict) -> usize {
    rows.iter()
        .filter(|row| row.level() == level && row.verdict() == verdict)
        .count()
}

/// How many of so many rows were not played.
pub fn count_left_out(rows: &[PlayedRow<'_>], all: usize) -> usize
    ensures { result ≡ count_left_out all rows.now }
{
    let skipped = count_in(rows, TalkVerdict::Skipped);
    all.saturating_sub(rows.len().saturating_sub(skipped))
}

/// Whether all of so many rows were played, none is blocked, and none deviates.
pub fn conform(rows: &[PlayedRow<'_>], all: usize) -> bool
    ensures { result ≡ conform all rows.now }
{
    count_left_out(rows, all) == 0
        && count_in(rows, TalkVerdict::Blocked) == 0
        && count_in(rows, TalkVerdict::Deviates) == 0
}

/// The id of the first of these talks that met that nobody listens any more, if one did.
pub fn gone_in<'a>(played: &'a [PlayedTalk<'a>]) -> Option<&'a [u8]>
    ensures { option_copied result ≡ option_map (λ talk. talk.queued.talk.now.id) (find met_nobody played.now) }
{
    let gone = played.iter().find(|talk| talk.is_refused())?;
    Some(gone.queued.talk.id.as_slice())
}

/// The rows of these talks, in their order.
pub fn rows_of<'a>(
    alloc: Global,
    played: &'a [PlayedTalk<'a>],
) -> Result<Vec<PlayedRow<'a>>, AllocError>
    ensures talks { IfOk result (λ rows. flat_map (λ row. row.talks.now) rows.items ≡ played.now) }
    ensures rows { IfOk result (λ rows. All IsRow rows.items) }
{
    let mut rows = Vec::new(alloc);
    for talks in played.chunk_by(|one, other| one.queued.row.id == other.queued.row.id) {
        if let Some(first) = talks.first() {
            rows.push(row_of(talks, first))?;
        }
    }
    Ok(rows)
}

// Whether a talk makes the exit status 1.
fn is_counted_talk(played: &PlayedTalk<'_>, strict: bool) -> bool
    ensures { result ≡ is_counted_talk strict played.now }
{
    is_counted(played.queued.level, played.verdict(), strict)
}

fn is_any_counted(played: &[PlayedTalk<'_>], strict: bool) -> bool
    ensures { result ≡ list_any (is_counted_talk strict) played.now }
{
    played.iter().any(|talk| is_counted_talk(talk, strict))
}

/// The exit status, by these talks. With `strict` every level counts.
pub fn exit_of(played: &[PlayedTalk<'_>], strict: bool) -> u8
    ensures { result ≡ exit_of strict played.now }
{
    u8::from(is_any_counted(played, strict))
}
