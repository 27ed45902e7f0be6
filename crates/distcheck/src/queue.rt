//! Beside which others talks are played.

ghost use Rattle.std.specs.Prelude.{◌≡◌, ◌∷◌, [], IfOk, IsPermutation, OnOk};
ghost use Rattle.distcheck.specs.Lanes.{all_in, lanes_of, queued_talks};

use crate::left_out::{SkipReason, is_slow};
use crate::progress::SectionTally;
use crate::standing::JudgingTerms;
use crate::suite::SuiteFile;
use dist_conformance::{Action, Demand, Level, Pattern, RowTalk, SuiteRow, TalkStep};
use std::alloc::{AllocError, Global};

/// How many talks are played at once, beside those that mostly wait. Our own choice: a node that serves many peers serves these too.
const AT_ONCE: usize = 8;

/// A talk that waits so many milliseconds has a thread of its own: none waits behind it. Our own choice.
const LONG: u32 = 1500;

/// A talk that may be played.
#[derive(Clone, Copy)]
pub struct QueuedTalk<'a> {
    /// Its place among all talks.
    pub place: usize,
    /// The file of its row.
    pub file: &'a SuiteFile,
    /// Its row.
    pub row: &'a SuiteRow,
    /// Its id and its steps.
    pub talk: &'a RowTalk,
    /// The level of its row, by the guide that counts.
    pub level: Level,
    /// By what it is judged.
    pub terms: JudgingTerms<'a>,
    /// Why it is left out, if it is.
    pub left_out: Option<SkipReason>,
}

/// The talks that may be played, by when they are.
#[derive(Drop)]
pub struct TalkQueue<'a> {
    /// Before all others, one after the other: they show how the others have to be played.
    pub first: Vec<QueuedTalk<'a>>,
    /// Beside one another; the talks of each of these one after the other.
    pub lanes: Vec<Vec<QueuedTalk<'a>>>,
    /// After all others, one after the other: each changes what others see.
    pub alone: Vec<QueuedTalk<'a>>,
    /// How many talks of each section are not played yet.
    pub tally: SectionTally<'a>,
}

impl<'a> TalkQueue<'a> {
    // A queue of no talk.
    fn new(alloc: Global) -> Result<TalkQueue<'a>, AllocError>
        ensures { IfOk result (λ queue. queued_talks queue ≡ []) }
    {
        let mut lanes = Vec::new(alloc);
        for _ in 0..AT_ONCE {
            lanes.push(Vec::new(alloc))?;
        }
        Ok(TalkQueue {
            first: Vec::new(alloc),
            lanes,
            alone: Vec::new(alloc),
            tally: SectionTally::new(alloc),
        })
    }

    fn push(&mut self, alloc: Global, queued: QueuedTalk<'a>) -> Result<(), AllocError>
        ensures { OnOk result (IsPermutation (queued.entry ∷ queued_talks self.old) (queued_talks self.new)) }
    {
        self.tally.add(&queued.file.section)?;
        if queued.row.marks.first {
            return Ok(self.first.push(queued)?);
        }
        if queued.row.marks.alone {
            return Ok(self.alone.push(queued)?);
        }
        push_beside(alloc, &mut self.lanes, queued)
    }
}

// Adds a talk in a lane of its own.
fn push_lane<'a>(
    alloc: Global,
    lanes: &mut Vec<Vec<QueuedTalk<'a>>>,
    queued: QueuedTalk<'a>,
) -> Result<(), AllocError>
    ensures { OnOk result (IsPermutation (queued.entry ∷ all_in (lanes_of lanes.old.items)) (all_in (lanes_of lanes.new.items))) }
{
    Ok(lanes.push(vec![in alloc; queued]?)?)
}

// Adds a talk beside others: to a lane, or to one of its own.
fn push_beside<'a>(
    alloc: Global,
    lanes: &mut Vec<Vec<QueuedTalk<'a>>>,
    queued: QueuedTalk<'a>,
) -> Result<(), AllocError>
    ensures { OnOk result (IsPermutation (queued.entry ∷ all_in (lanes_of lanes.old.items)) (all_in (lanes_of lanes.new.items))) }
{
    if is_long(&queued) {
        return push_lane(alloc, lanes, queued);
    }
    match lanes.get_mut(queued.place % AT_ONCE) {
        Some(lane) => Ok(lane.push(queued)?),
        None => push_lane(alloc, lanes, queued),
    }
}

// How many milliseconds a demand wants that nothing, or nothing more, comes.
fn time_in(demand: &Demand) -> u32 {
    let mut longest = 0;
    for patterns in demand.wanted.as_slice() {
        for pattern in patterns.as_slice() {
            if let Pattern::Silence(time) | Pattern::Open(time) = pattern {
                longest = longest.max(*time);
            }
        }
    }
    longest
}

// How many milliseconds a talk takes at least.
fn time_of(steps: &[TalkStep]) -> u32 {
    let mut sum = 0u32;
    for step in steps {
        let time = match &step.action {
            Action::Wait(time) | Action::Tell(time) | Action::Call(Some(time), _) => *time,
            Action::Hear(demand) | Action::Want(demand) => time_in(demand),
            _ => 0,
        };
        sum = sum.saturating_add(time);
    }
    sum
}

// Whether a talk waits, or may wait, so long that no other is to wait behind it.
fn is_long(queued: &QueuedTalk<'_>) -> bool {
    time_of(queued.talk.steps.as_slice()) >= LONG || is_slow(queued.row)
}

/// The talks, by when they are played.
pub fn queue_of<'a>(alloc: Global, talks: &[QueuedTalk<'a>]) -> Result<TalkQueue<'a>, AllocError>
    ensures { IfOk result (λ queue. IsPermutation talks.now (queued_talks queue)) }
{
    let mut queue = TalkQueue::new(alloc)?;
    for queued in talks {
        queue.push(alloc, *queued)?;
    }
    Ok(queue)
}
