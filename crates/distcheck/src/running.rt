//! Plays all talks: those that are played first, then the others beside one another, then those that are played alone; and at the end
//! once more, alone, what deviates.

ghost use Rattle.std.specs.Prelude.{◌≡◌, ◌<◌, ◌++◌, None, Some, vec_len, option_copied, IfOk, OnOk};
ghost use Rattle.std.specs.{List.list_any, Option.ForSome};
ghost use Rattle.distcheck.specs.Lanes.{all_in, lane_at, lanes_in, lanes_of, queued_talks};
ghost use Rattle.distcheck.specs.{Played.AreConfirmed, Played.heard_peer, Played.IsAgain, Played.IsTwiceUnless, Played.talks_of, Trying.try_verdict};

use crate::fault::Fault;
use crate::lane::LaneReply;
use crate::left_out::SkipReason;
use crate::playing::{Setting, TalkTry, play};
use crate::queue::{QueuedTalk, TalkQueue, queue_of};
use crate::results::gone_in;
use crate::tries::PlayedTalk;
use crate::wanted::WantedTalks;
use dist_conformance::{SectionKind, TalkVerdict};
use dist_names::is_same_text;
use std::sync::atomic::{AtomicBool, AtomicUsize, Ordering};
use std::thread::{Threads, map_indices, sleep};

/// How many talks have to hear nothing, until it is believed that nothing ever comes; fewer, where one is played at a time. Our own choice.
const SILENT: usize = 12;

const SILENT_ALONE: usize = 3;

// Whether a node, or a port mapper, lets hear of itself.
#[derive(Drop)]
struct PartnerTally {
    is_heard: AtomicBool,
    // How many talks heard nothing, and wanted something.
    silent: AtomicUsize,
}

impl PartnerTally {
    fn new() -> PartnerTally {
        PartnerTally {
            is_heard: AtomicBool::new(false),
            silent: AtomicUsize::new(0),
        }
    }

    fn is_heard(&self) -> bool {
        self.is_heard.load(Ordering::SeqCst)
    }

    // Whether nothing ever comes, by so many talks.
    fn is_silent(&self, talks: usize) -> bool {
        !self.is_heard() && self.silent.load(Ordering::SeqCst) >= talks
    }

    fn note(&self, one: &TalkTry) {
        if one.is_heard() {
            self.is_heard.store(true, Ordering::SeqCst);
        } else if is_bad(one.verdict) {
            self.silent.fetch_add(1, Ordering::SeqCst);
        }
    }
}

// What the threads share.
#[derive(Drop)]
struct TalkCrew<'a> {
    setting: Setting<'a>,
    queue: TalkQueue<'a>,
    // Whether one talk is played at a time.
    is_serial: bool,
    // Whether a talk that is played first is not kept, so that the others are played one after the other.
    is_held_up: bool,
    // Whether nobody listens any more.
    is_gone: AtomicBool,
    node: PartnerTally,
    mapper: PartnerTally,
}

/// What became of all talks.
#[derive(Drop)]
pub struct PlayedSuite<'a> {
    /// The talks, in their order.
    pub talks: Vec<PlayedTalk<'a>>,
    /// How many rows there are for what is checked, those among them that were not asked for.
    pub rows: usize,
    /// Whether the node takes one handshake at a time, so that the others were played one after the other.
    pub is_one_at_a_time: bool,
}

// Whether a talk is not kept.
fn is_bad(verdict: TalkVerdict) -> bool {
    matches!(verdict, TalkVerdict::Deviates | TalkVerdict::Blocked)
}

// Plays a talk; anew, where its bytes cannot be said.
fn play_anew<'a>(setting: &Setting<'a>, queued: &QueuedTalk<'a>) -> Result<TalkTry, Fault>
    ensures { IfOk result (λ one. one.verdict ≡ try_verdict queued.now one.played.items) }
{
    for _ in 1..queued.row.marks.tries {
        let one = play(setting, queued)?;
        if !one.is_unsaid() {
            return Ok(one);
        }
    }
    play(setting, queued)
}

impl<'a> TalkCrew<'a> {
    // Whether the partner of a talk lets hear of itself.
    fn partner(&self, queued: &QueuedTalk<'_>) -> &PartnerTally {
        match queued.file.section.kind {
            SectionKind::Node => &self.node,
            SectionKind::Mapper => &self.mapper,
        }
    }

    // Why a talk is left out, if it is: it may not be played, or there is nobody to try it with.
    fn reason_to_skip(&self, queued: &QueuedTalk<'_>) -> Option<SkipReason>
        ensures { ForSome queued.now.left_out (λ why. result ≡ Some why) }
    {
        let silent = if self.is_serial { SILENT_ALONE } else { SILENT };
        if queued.left_out.is_some() {
            queued.left_out
        } else if self.is_gone.load(Ordering::SeqCst) {
            Some(SkipReason::Gone)
        } else if self.partner(queued).is_silent(silent) {
            Some(SkipReason::Silent)
        } else {
            None
        }
    }

    // Plays a talk once.
    fn play_once(&self, queued: &QueuedTalk<'a>) -> Result<TalkTry, Fault>
        ensures { IfOk result (λ one. one.verdict ≡ try_verdict queued.now one.played.items) }
    {
        let one = play_anew(&self.setting, queued)?;
        self.partner(queued).note(&one);
        if one.is_refused() {
            self.is_gone.store(true, Ordering::SeqCst);
        }
        Ok(one)
    }

    // Plays a talk again, unless it is left out. The node may still be busy with who said the talk's name before.
    fn play_again(&self, played: PlayedTalk<'a>) -> Result<PlayedTalk<'a>, Fault>
        ensures { IfOk result (IsAgain played.entry) }
    {
        let None = played.left_out else {
            return Ok(played);
        };
        sleep(self.setting.rt, self.setting.breath());
        let PlayedTalk {
            queued,
            left_out,
            mut tries,
        } = played;
        tries.push(self.play_once(&queued)?)?;
        Ok(PlayedTalk {
            queued,
            left_out,
            tries,
        })
    }

    // Plays a talk that may be played; again, if it is blocked: the machine may be less busy then. As long as nothing was ever heard it is not.
    fn try_talk(&self, queued: &QueuedTalk<'a>) -> Result<PlayedTalk<'a>, Fault>
        // The talk is to be played.
        requires { queued.now.left_out ≡ None }
        ensures { IfOk result (λ it. it.queued ≡ queued.now) }
    {
        let one = self.play_once(queued)?;
        let is_blocked = one.verdict == TalkVerdict::Blocked;
        let played = PlayedTalk {
            queued: *queued,
            left_out: None,
            tries: vec![in self.setting.rt.alloc(); one]?,
        };
        let is_gone = self.is_gone.load(Ordering::SeqCst);
        if is_blocked && !is_gone && self.partner(queued).is_heard() {
            self.play_again(played)
        } else {
            Ok(played)
        }
    }

    // Plays a talk, or leaves it out.
    fn perform(&self, queued: &QueuedTalk<'a>) -> Result<PlayedTalk<'a>, Fault>
        ensures { IfOk result (λ it. it.queued ≡ queued.now) }
    {
        match self.reason_to_skip(queued) {
            None => self.try_talk(queued),
            left_out => Ok(PlayedTalk {
                queued: *queued,
                left_out,
                tries: Vec::new(self.setting.rt.alloc()),
            }),
        }
    }

    fn play_lane(&self, lane: &[QueuedTalk<'a>]) -> Result<Vec<PlayedTalk<'a>>, Fault>
        ensures { IfOk result (λ ps. talks_of ps.items ≡ lane.now) }
    {
        let mut played = Vec::new(self.setting.rt.alloc());
        for queued in lane {
            played.push(self.perform(queued)?)?;
            self.queue.tally.note(self.setting.rt, &queued.file.section);
        }
        Ok(played)
    }

    fn make_reply(&self, place: usize) -> LaneReply<'_, 'a>
        requires { place < vec_len self.now.queue.lanes }
        ensures { result.lane.now ≡ lane_at self.now.queue.lanes.items place }
    {
        let lane = self.queue.lanes[place].as_slice();
        LaneReply {
            lane,
            played: self.play_lane(lane),
        }
    }

    // Plays all lanes beside one another, each in a thread.
    fn play_beside<R: Threads + Sync>(&self, threads: &R) -> Result<Vec<LaneReply<'_, 'a>>, Fault>
        ensures { IfOk result (λ replies. lanes_in replies.items ≡ lanes_of self.now.queue.lanes.items) }
    {
        let replies = map_indices(
            threads,
            self.setting.rt.alloc(),
            self.queue.lanes.len(),
            &|place: usize| -> LaneReply<'_, '_>
                requires { place < vec_len self.now.queue.lanes }
                ensures { result.lane.now ≡ lane_at self.entry.now.queue.lanes.items place }
            { self.make_reply(place) },
        )?;
        Ok(replies)
    }

    // Plays all lanes: beside one another, or one after the other.
    fn play_lanes<R: Threads + Sync>(&self, threads: &R) -> Result<Vec<LaneReply<'_, 'a>>, Fault>
        ensures { IfOk result (λ replies. lanes_in replies.items ≡ lanes_of self.now.queue.lanes.items) }
    {
        if !self.is_serial {
            return self.play_beside(threads);
        }
        let mut replies = Vec::new(self.setting.rt.alloc());
        for lane in &self.queue.lanes {
            let played = self.play_lane(lane);
            replies.push(LaneReply { lane, played })?;
        }
        Ok(replies)
    }

    // Plays a talk again, if it deviates, unless it is of this row: one of that deviates for good.
    fn confirm(
        &self,
        played: PlayedTalk<'a>,
        deviating: Option<&'a [u8]>,
    ) -> Result<PlayedTalk<'a>, Fault>
        ensures same { IfOk result (λ it. it.queued ≡ played.entry.queued) }
        ensures twice { IfOk result (IsTwiceUnless (option_copied deviating.entry)) }
    {
        let is_known = match deviating {
            Some(row) => is_same_text(row, played.queued.row.id.as_slice()),
            None => false,
        };
        if is_known || played.verdict() != TalkVerdict::Deviates {
            return Ok(played);
        }
        self.play_again(played)
    }

    // Plays once more, alone, what deviates, unless somebody is gone or nobody was ever heard. In a row of which one talk then deviates the
    // others are not played again.
    fn confirm_all(&self, talks: Vec<PlayedTalk<'a>>) -> Result<Vec<PlayedTalk<'a>>, Fault>
        ensures talks { IfOk result (λ ps. talks_of ps.items ≡ talks_of talks.entry.items) }
        ensures confirmed { IfOk result (λ ps. AreConfirmed ps.items) }
    {
        if gone_in(&talks).is_some() || !is_any_heard(&talks) {
            return Ok(talks);
        }
        let mut confirmed = Vec::new(self.setting.rt.alloc());
        let mut deviating: Option<&'a [u8]> = None;
        for played in talks {
            let played = self.confirm(played, deviating)?;
            if played.verdict() == TalkVerdict::Deviates {
                let row = played.queued.row;
                deviating = Some(row.id.as_slice());
            }
            confirmed.push(played)?;
        }
        Ok(confirmed)
    }
}

// Whether a peer was heard in one of these talks.
fn is_any_heard(talks: &[PlayedTalk<'_>]) -> bool
    ensures { result ≡ list_any heard_peer talks.now }
{
    talks.iter().any(|played| played.is_heard())
}

// Appends what lanes came to.
fn take_replies<'a>(
    replies: Vec<LaneReply<'_, 'a>>,
    played: &mut Vec<PlayedTalk<'a>>,
) -> Result<(), Fault>
    ensures { OnOk result (talks_of played.new.items ≡ talks_of played.old.items ++ all_in (lanes_in replies.entry.items)) }
{
    for reply in replies {
        let LaneReply {
            played: mut more,
            ..
        } = reply;
        played.append(&mut more?)?;
    }
    Ok(())
}

impl<'a> TalkCrew<'a> {
    // Plays all talks, each once, and returns what became of them in the order in which they are queued.
    fn play_all<R: Threads + Sync>(&mut self, threads: &R) -> Result<Vec<PlayedTalk<'a>>, Fault>
        ensures { IfOk result (λ talks. talks_of talks.items ≡ queued_talks self.old.queue) }
    {
        let mut talks = self.play_lane(&self.queue.first)?;
        self.is_held_up = talks.iter().any(|played| is_bad(played.verdict()));
        self.is_serial = self.is_serial || self.is_held_up;
        take_replies(self.play_lanes(threads)?, &mut talks)?;
        talks.append(&mut self.play_lane(&self.queue.alone)?)?;
        Ok(talks)
    }
}

/// Plays the talks that are wanted, and returns what became of each, in their order.
pub fn run_talks<'a, R: Threads + Sync>(
    threads: &R,
    setting: &Setting<'a>,
    wanted: &WantedTalks<'a>,
    is_serial: bool,
) -> Result<PlayedSuite<'a>, Fault>
    ensures talks { IfOk result (λ suite. talks_of suite.talks.items ≡ wanted.now.talks.items) }
    ensures confirmed { IfOk result (λ suite. AreConfirmed suite.talks.items) }
    ensures rows { IfOk result (λ suite. suite.rows ≡ wanted.now.rows) }
{
    let queue = queue_of(setting.rt.alloc(), &wanted.talks)?;
    let mut crew = TalkCrew {
        setting: *setting,
        queue,
        is_serial,
        is_held_up: false,
        is_gone: AtomicBool::new(false),
        node: PartnerTally::new(),
        mapper: PartnerTally::new(),
    };
    let mut talks = crew.play_all(threads)?;
    talks.sort_by_key(|played| played.queued.place)?;
    Ok(PlayedSuite {
        talks: crew.confirm_all(talks)?,
        rows: wanted.rows,
        is_one_at_a_time: crew.is_held_up && crew.node.is_heard(),
    })
}
