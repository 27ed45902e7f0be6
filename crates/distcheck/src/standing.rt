//! How a talk stands: by its steps, and what was seen in each.

ghost use Rattle.std.specs.Prelude.{◌≡◌, [], OnOk, IfOk};
ghost use Rattle.distcheck.specs.Playing.{standing_of, beginning, ends_by, with_left, came_on, observation_in, passes};
ghost use Rattle.distcheck.specs.Playing.{by_demand, after_hearing, after_saying, after_making, next, verdict_in};
ghost use Rattle.dist_conformance.specs.Judging.{judgement_of};
ghost use Rattle.dist_conformance.specs.declared.verdicts.TalkVerdict.TheVariants as verdict;

use crate::seen::{PeerEnd, StepFact, Timing};
use crate::transcript::{digits_of, letter_of};
use crate::waiting::HeardBytes;
use dist_conformance::{
    Action, Demand, Judgement, Learned, Observed, Passage, TalkStep, TalkVerdict, judge,
};
use dist_names::ByteString;
use dist_secret::Cookie;
use std::alloc::{AllocError, Global};

/// By what a talk is judged, beside its steps.
#[derive(Clone, Copy)]
pub struct JudgingTerms<'a> {
    /// How many milliseconds a demand waits.
    pub limit: u32,
    /// The cookie of the node under test.
    pub cookie: &'a Cookie,
}

/// How a talk stands.
#[derive(Drop)]
pub struct TalkState<'a> {
    /// By what it is judged.
    pub terms: JudgingTerms<'a>,
    /// The verdict so far, or the one by which it ended.
    pub verdict: TalkVerdict,
    /// Whether it ended.
    pub is_over: bool,
    /// The numbers that came, in order.
    pub learned: Vec<Learned>,
    /// What came on each connection, and was not matched yet.
    pub left: Vec<ByteString>,
    /// Why it ended, or is loose; what was told.
    pub why: String,
}

// Where what was seen is none that the step can show.
const NOT_MADE: &str = "the step was not made";

const UNSAID: &str = "the message has no more bytes than that";

impl<'a> TalkState<'a> {
    /// That of a talk before its first step.
    pub fn new(alloc: Global, terms: JudgingTerms<'a>) -> Result<TalkState<'a>, AllocError>
        ensures { IfOk result (λ s. standing_of s ≡ beginning terms.entry) }
    {
        let mut left = Vec::new(alloc);
        left.push(ByteString::new(alloc))?;
        left.push(ByteString::new(alloc))?;
        left.push(ByteString::new(alloc))?;
        left.push(ByteString::new(alloc))?;
        left.push(ByteString::new(alloc))?;
        Ok(TalkState {
            terms,
            verdict: TalkVerdict::Kept,
            is_over: false,
            learned: Vec::new(alloc),
            left,
            why: String::new(alloc),
        })
    }

    fn end(&mut self, verdict: TalkVerdict, why: &str) -> Result<(), AllocError>
        ensures { OnOk result (standing_of self.new ≡ ends_by verdict (standing_of self.old)) }
    {
        self.verdict = verdict;
        self.is_over = true;
        self.why.push_str(why)
    }

    // Leaves nothing but these bytes of a connection.
    fn leave(&mut self, conn: u8, bytes: Vec<u8>)
        ensures { standing_of self.new ≡ record (standing_of self.old) { left = with_left conn bytes.items (standing_of self.old).left } }
    {
        let conn = usize::from(conn);
        if conn < self.left.len() {
            self.left[conn] = ByteString::from_vec(bytes);
        }
    }

    /// All that came on a connection and was not matched yet, where this came last.
    pub fn came_on(&self, conn: u8, bytes: &[u8]) -> Result<Vec<u8>, AllocError>
        ensures { IfOk result (λ came. came.items ≡ came_on (standing_of self.now) conn bytes.now) }
    {
        let mut came = Vec::new(*self.left.allocator());
        if let Some(left) = self.left.get(usize::from(conn)) {
            came.extend_from_slice(left.as_slice())?;
        }
        came.extend_from_slice(bytes)?;
        Ok(came)
    }

    /// What a demand comes to by this, which came.
    pub fn judgement(&self, demand: &Demand, came: &[u8], timing: Timing) -> Judgement
        ensures { result ≡ judgement_of demand.now (observation_in (standing_of self.now) came.now timing) }
    {
        judge(
            demand,
            &Observed {
                came,
                ended: timing.end.is_over(),
                elapsed: timing.elapsed,
                pause: timing.pause,
                limit: self.terms.limit,
                learned: &self.learned,
                cookie: self.terms.cookie,
            },
        )
    }

    // Lets what matched through, and keeps what was learned from it.
    fn pass(&mut self, conn: u8, came: &[u8], passage: &Passage) -> Result<(), AllocError>
        ensures { OnOk result (standing_of self.new ≡ passes conn came.now passage.now (standing_of self.old)) }
    {
        if let Some(learned) = passage.learned(conn) {
            self.learned.push(learned)?;
        }
        let count = passage.count.min(came.len());
        let left = Vec::from_slice(*self.left.allocator(), &came[count..])?;
        self.leave(conn, left);
        Ok(())
    }

    // Has what came in a step that demands something judged. Unless it is kept or loose the talk ends by this verdict.
    #[tactic(auto, unfolding(crate::specs::Playing::by_demand, crate::specs::Playing::by_judgement))]
    fn take_demand(
        &mut self,
        verdict: TalkVerdict,
        conn: u8,
        demand: &Demand,
        heard: &HeardBytes,
    ) -> Result<(), AllocError>
        ensures { OnOk result (standing_of self.new ≡ by_demand verdict conn demand.now heard.now (standing_of self.old)) }
    {
        let came = self.came_on(conn, heard.bytes())?;
        let judgement = self.judgement(demand, &came, heard.timing);
        let is_late = self.terms.limit <= heard.timing.elapsed;
        let alloc = *self.left.allocator();
        let why = reason(alloc, judgement, conn, &came, heard.timing.end, is_late)?;
        match judgement {
            Judgement::Kept(passage) => self.pass(conn, &came, &passage),
            Judgement::Loose(passage) => {
                self.verdict = TalkVerdict::Loose;
                self.why.push_str(&why)?;
                self.pass(conn, &came, &passage)
            }
            Judgement::Deviates(_) | Judgement::More => self.end(verdict, &why),
        }
    }

    // Notes what came in a step that tells.
    fn tell(&mut self, conn: u8, heard: &HeardBytes) -> Result<(), AllocError>
        ensures { OnOk result (standing_of self.new ≡ record (standing_of self.old) {
          verdict = verdict.Noted;
          left = with_left conn [] (standing_of self.old).left;
        }) }
    {
        let came = self.came_on(conn, heard.bytes())?;
        if !self.why.is_empty() {
            self.why.push_str("; ")?;
        }
        let alloc = *self.left.allocator();
        let told = description(alloc, conn, &came, heard.timing.end, true)?;
        self.why.push_str(&told)?;
        self.leave(conn, Vec::new(alloc));
        self.verdict = TalkVerdict::Noted;
        Ok(())
    }

    // Takes what came in a step.
    #[tactic(auto, unfolding(crate::specs::Playing::after_hearing))]
    fn take_heard(&mut self, step: &TalkStep, heard: &HeardBytes) -> Result<(), AllocError>
        ensures { OnOk result (standing_of self.new ≡ after_hearing step.now.conn step.now.action heard.now (standing_of self.old)) }
    {
        match &step.action {
            Action::Hear(demand) => {
                self.take_demand(TalkVerdict::Blocked, step.conn, demand, heard)
            }
            Action::Want(demand) => {
                self.take_demand(TalkVerdict::Deviates, step.conn, demand, heard)
            }
            Action::Tell(_) => self.tell(step.conn, heard),
            _ => self.end(TalkVerdict::Blocked, NOT_MADE),
        }
    }

    // Takes that something was said in a step.
    #[tactic(auto, unfolding(crate::specs::Playing::after_saying))]
    fn take_said(&mut self, step: &TalkStep) -> Result<(), AllocError>
        ensures { OnOk result (standing_of self.new ≡ after_saying step.now.action (standing_of self.old)) }
    {
        match &step.action {
            Action::Say(_) => Ok(()),
            _ => self.end(TalkVerdict::Blocked, NOT_MADE),
        }
    }

    // Takes that a step was made.
    #[tactic(auto, unfolding(crate::specs::Playing::after_making))]
    fn take_made(&mut self, step: &TalkStep) -> Result<(), AllocError>
        ensures { OnOk result (standing_of self.new ≡ after_making step.now.conn step.now.action (standing_of self.old)) }
    {
        match &step.action {
            Action::Say(_) | Action::Hear(_) | Action::Want(_) | Action::Tell(_) => {
                self.end(TalkVerdict::Blocked, NOT_MADE)
            }
            Action::Half | Action::Close | Action::Reset | Action::Wait(_) => Ok(()),
            _ => {
                let alloc = *self.left.allocator();
                self.leave(step.conn, Vec::new(alloc));
                Ok(())
            }
        }
    }

    /// Takes what was seen in a step, unless the talk is over.
    #[tactic(auto, unfolding(crate::specs::Playing::next, crate::specs::Playing::after))]
    pub fn take(&mut self, step: &TalkStep, seen: &StepFact) -> Result<(), AllocError>
        ensures { OnOk result (standing_of self.new ≡ next step.now seen.now (standing_of self.old)) }
    {
        if self.is_over {
            return Ok(());
        }
        match seen {
            StepFact::Made => self.take_made(step),
            StepFact::Said(_) => self.take_said(step),
            StepFact::Heard(heard) => self.take_heard(step, heard),
            StepFact::Came => self.end(TalkVerdict::Deviates, "the node connects"),
            StepFact::Refused => self.end(TalkVerdict::Blocked, "no connection was taken"),
            StepFact::Unsaid => self.end(TalkVerdict::Skipped, UNSAID),
            StepFact::Failed(why) => self.end(TalkVerdict::Blocked, why),
        }
    }

    /// The verdict, where so many of so many steps were played.
    pub fn verdict_in(&self, steps: usize, played: usize) -> TalkVerdict
        ensures { result ≡ verdict_in steps played (standing_of self.now) }
    {
        if self.is_over || steps <= played {
            self.verdict
        } else {
            TalkVerdict::Skipped
        }
    }
}

// Why what came is not what was wanted, or is loose.
fn reason(
    alloc: Global,
    judgement: Judgement,
    conn: u8,
    came: &[u8],
    end: PeerEnd,
    is_late: bool,
) -> Result<String, AllocError> {
    let word = match judgement {
        Judgement::Deviates(deviation) => deviation.name(),
        Judgement::Loose(_) => "loose",
        Judgement::Kept(_) | Judgement::More => "",
    };
    let told = description(alloc, conn, came, end, is_late)?;
    format!(in alloc; "{word}: {told}")
}

// What came, and what became of the connection, in words. That it stays open is said only where that was seen: at the end of a wait.
fn description(
    alloc: Global,
    conn: u8,
    came: &[u8],
    end: PeerEnd,
    is_late: bool,
) -> Result<String, AllocError> {
    let letter = letter_of(conn);
    let hex = digits_of(alloc, came)?;
    let came = if hex.is_empty() { "nothing" } else { "" };
    let end = match end {
        PeerEnd::Open if is_late => "stays open",
        other => other.text(),
    };
    let comma = if end.is_empty() { "" } else { ", " };
    format!(in alloc; "{letter}: {came}{hex}{comma}{end}")
}
