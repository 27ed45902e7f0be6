//! The rows of a section.

use crate::lists::SuiteList;
use crate::steps::TalkStep;
use dist_names::ByteString;

/// What a row's demand rests on.
#[derive(Clone, Copy, PartialEq, Eq)]
pub enum Level {
    /// A sentence, a table or a figure of the ERTS User's Guide that leaves no choice.
    Must,
    /// The guide's purpose, or that the node stays in service.
    Should,
    /// The guide says nothing, and all releases from OTP 23 on do the same.
    Otp,
    /// Releases or good nodes differ: what comes is only reported.
    May,
}

impl Level {
    /// Its word in rows.
    pub fn name(self) -> &'static str {
        match self {
            Level::Must => "must",
            Level::Should => "should",
            Level::Otp => "otp",
            Level::May => "may",
        }
    }
}

/// What a section's rows are played against.
#[derive(Clone, Copy)]
pub enum SectionKind {
    /// A node.
    Node,
    /// A port mapper.
    Mapper,
}

/// How a row is played.
#[derive(Clone, Copy)]
pub struct Marks {
    /// `since=N`: the release of OTP from whose guide on it is demanded. 0 where every guide does.
    pub since: u32,
    /// How many milliseconds a demand waits. It is 5,000 unless the row is marked `slow=MS`.
    pub limit: u32,
    /// `harsh`: what the row does can end a fragile node.
    pub harsh: bool,
    /// `alone`: no other talk may be on its way.
    pub alone: bool,
    /// `first`: it is played before all others. Where it is not kept the node takes one handshake at a time.
    pub first: bool,
    /// `tries=N`: how often a talk is begun whose bytes cannot be said. It is 1 unless the row is marked.
    pub tries: u32,
}

/// One talk of a row.
#[derive(Drop)]
pub struct RowTalk {
    /// The row's id, and behind `/` the family's value: `1.5/00`.
    pub id: ByteString,
    /// What is done, in order.
    pub steps: SuiteList<TalkStep>,
}

/// A row: one thing that is demanded.
#[derive(Drop)]
pub struct SuiteRow {
    /// Its section and its number: `1.5`.
    pub id: ByteString,
    /// What it rests on.
    pub level: Level,
    /// Where that stands.
    pub source: ByteString,
    /// What is demanded, in words.
    pub title: ByteString,
    /// How it is played.
    pub marks: Marks,
    /// One talk, or one for each value of a family.
    pub talks: SuiteList<RowTalk>,
}

/// A section of the suite: one text.
#[derive(Drop)]
pub struct Section {
    /// Its number.
    pub number: u32,
    /// What it is played against.
    pub kind: SectionKind,
    /// What it is about.
    pub title: ByteString,
    /// Its rows, in order.
    pub rows: SuiteList<SuiteRow>,
}
