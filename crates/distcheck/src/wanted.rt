//! Which talks are wanted: of those that there is somebody to play with, those that are asked for.

ghost use Rattle.std.specs.{Prelude.◌≡◌, Prelude.length, Prelude.map, List.range_with_len};

use crate::command::CheckOrder;
use crate::left_out::left_out_of;
use crate::playing::Setting;
use crate::queue::QueuedTalk;
use crate::standing::JudgingTerms;
use crate::suite::SuiteFile;
use dist_conformance::{Level, SectionKind, SuiteRow};
use dist_names::{is_same_text, number_32};
use std::alloc::AllocError;

/// The talks that are wanted.
#[derive(Drop)]
pub struct WantedTalks<'a> {
    /// The talks, in the order of files, rows and talks.
    pub talks: Vec<QueuedTalk<'a>>,
    /// How many rows there are for what is checked, those among them that are not asked for.
    pub rows: usize,
    // Each talk knows its place.
    pub ghost placed: { map (λ talk. talk.place) talks.items ≡ range_with_len 0 (length talks.items) },
}

// Whether there is somebody to play rows of this kind with.
fn has_partner(setting: &Setting<'_>, kind: SectionKind) -> bool {
    match kind {
        SectionKind::Node => setting.node.is_some(),
        SectionKind::Mapper => setting.mapper.is_some(),
    }
}

// Whether a word is the number of a talk's section, the id of its row, or its own.
fn is_named_by(queued: &QueuedTalk<'_>, word: &[u8]) -> bool {
    is_same_text(word, queued.row.id.as_slice())
        || is_same_text(word, queued.talk.id.as_slice())
        || number_32(word) == Some(queued.file.section.number)
}

// Whether a talk is one of those that are asked for.
fn is_asked_for(order: &CheckOrder<'_>, queued: &QueuedTalk<'_>) -> bool {
    match order.only {
        Some(words) => words
            .split(',')
            .any(|word| is_named_by(queued, word.as_bytes())),
        None => true,
    }
}

impl<'a> WantedTalks<'a> {
    // Adds a talk, at its place.
    fn push(&mut self, queued: QueuedTalk<'a>) -> Result<(), AllocError> {
        let place = self.talks.len();
        self.talks.push(QueuedTalk { place, ..queued })?;
        Ok(())
    }

    // Adds the talks of a row that are asked for. What a guide later than that which counts demands is at level may. OTP 25 closes a
    // connection over TLS five seconds after its process ended.
    fn push_row(
        &mut self,
        file: &'a SuiteFile,
        row: &'a SuiteRow,
        order: &CheckOrder<'_>,
        setting: &Setting<'a>,
    ) -> Result<(), AllocError> {
        let is_tunnelled = setting.is_tunnelled && matches!(file.section.kind, SectionKind::Node);
        let limit = row.marks.limit;
        for talk in row.talks.as_slice() {
            let queued = QueuedTalk {
                place: 0,
                file,
                row,
                talk,
                level: if row.marks.since <= u32::from(order.guide) {
                    row.level
                } else {
                    Level::May
                },
                terms: JudgingTerms {
                    limit: if is_tunnelled {
                        limit.max(15000)
                    } else {
                        limit
                    },
                    cookie: setting.cookie,
                },
                left_out: left_out_of(order, is_tunnelled, row, talk),
            };
            if is_asked_for(order, &queued) {
                self.push(queued)?;
            }
        }
        Ok(())
    }
}

// How many rows there is somebody to play with.
fn count_rows(suite: &[SuiteFile], setting: &Setting<'_>) -> usize {
    let mut rows = 0usize;
    for file in suite {
        if has_partner(setting, file.section.kind) {
            rows = rows.saturating_add(file.section.rows.as_slice().len());
        }
    }
    rows
}

/// The talks that are wanted.
pub fn wanted_talks<'a>(
    suite: &'a [SuiteFile],
    order: &CheckOrder<'_>,
    setting: &Setting<'a>,
) -> Result<WantedTalks<'a>, AllocError> {
    let mut wanted = WantedTalks {
        talks: Vec::new(setting.rt.alloc()),
        rows: count_rows(suite, setting),
    };
    for file in suite {
        if has_partner(setting, file.section.kind) {
            for row in file.section.rows.as_slice() {
                wanted.push_row(file, row, order, setting)?;
            }
        }
    }
    Ok(wanted)
}
