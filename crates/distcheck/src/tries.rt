//! A talk, and what became of it in each of its tries.

ghost use Rattle.std.specs.Prelude.{◌≡◌, ◌<◌, Some, [], length};
ghost use Rattle.std.specs.{List.list_any, Option.ForNone, Option.ForSome};
ghost use Rattle.distcheck.specs.Trying.{told_verdicts, denies, tries_verdict, verdicts_of, was_heard, was_refused};

use crate::left_out::SkipReason;
use crate::playing::TalkTry;
use crate::queue::QueuedTalk;
use crate::seen::{PlayedStep, StepFact};
use dist_conformance::{TalkStep, TalkVerdict};

impl TalkTry {
    /// Whether nobody listened where it connects.
    pub fn is_refused(&self) -> bool
        ensures { result ≡ was_refused self.now }
    {
        self.played.iter().any(|step| step.seen.is_refusal())
    }

    /// Whether the bytes of a step could not be said.
    pub fn is_unsaid(&self) -> bool {
        matches!(self.played.last(), Some(last) if matches!(last.seen, StepFact::Unsaid))
    }

    /// Whether the peer was heard.
    pub fn is_heard(&self) -> bool
        ensures { result ≡ was_heard self.now }
    {
        self.played.iter().any(|step| step.seen.is_heard())
    }
}

/// A talk, and all of its tries: none where it is left out. What is blocked or deviates is tried again.
#[derive(Drop)]
pub struct PlayedTalk<'a> {
    /// The talk.
    pub queued: QueuedTalk<'a>,
    /// Why it was left out, if it was.
    pub left_out: Option<SkipReason>,
    /// Its tries, in order.
    pub tries: Vec<TalkTry>,
    // What is not to be played is left out.
    pub ghost as_queued: { ForSome queued.left_out (λ why. left_out ≡ Some why) },
    // Nothing is tried of a talk that is left out.
    pub ghost untried: { ForSome left_out (λ why. tries.items ≡ []) },
    // Any other has a try.
    pub ghost tried: { ForNone left_out (0 < length tries.items) },
    // The verdict of each is the judgement of what was seen in it.
    pub ghost judged: { told_verdicts tries.items ≡ verdicts_of queued tries.items },
}

/// What is shown of a talk: one of its tries, or why it is left out.
#[derive(Clone, Copy)]
pub struct ShownTry<'p> {
    /// What was seen in its steps, as far as they were made.
    pub played: &'p [PlayedStep],
    /// In words, what came and is not what was wanted, or why the talk was not tried.
    pub why: &'p str,
    /// How many milliseconds it took.
    pub took: u32,
}

// Whether a try denies a deviation in one before: it was played as far as to the demand, and met it. One that is blocked or skipped does not:
// it may have met what the other left behind, such as a name that the node still holds.
fn denies(verdict: TalkVerdict) -> bool
    ensures { result ≡ denies verdict }
{
    matches!(
        verdict,
        TalkVerdict::Noted | TalkVerdict::Kept | TalkVerdict::Loose
    )
}

impl<'a> PlayedTalk<'a> {
    /// The verdict of the talk: that of its last try, but a deviation stays one unless a later try denies it.
    pub fn verdict(&self) -> TalkVerdict
        ensures { result ≡ tries_verdict (verdicts_of self.now.queued self.now.tries.items) }
    {
        let mut verdict = TalkVerdict::Skipped;
        for one in &self.tries {
            if verdict != TalkVerdict::Deviates || denies(one.verdict) {
                verdict = one.verdict;
            }
        }
        verdict
    }

    /// Whether nobody listened in one of its tries.
    pub fn is_refused(&self) -> bool
        ensures { result ≡ list_any was_refused self.now.tries.items }
    {
        self.tries.iter().any(|one| one.is_refused())
    }

    /// Whether the peer was heard in one of its tries.
    pub fn is_heard(&self) -> bool
        ensures { result ≡ list_any was_heard self.now.tries.items }
    {
        self.tries.iter().any(|one| one.is_heard())
    }

    /// Its steps.
    pub fn steps(&self) -> &'a [TalkStep] {
        let talk = self.queued.talk;
        talk.steps.as_slice()
    }

    /// The step that decided: the last that was made in this try, as the row has it.
    pub fn demand_text(&self, one: &ShownTry<'_>) -> &'a [u8] {
        match self.steps().get(one.played.len().saturating_sub(1)) {
            Some(step) => step.text.as_slice(),
            None => &[],
        }
    }

    /// The try that is shown: the last that deviates, where the talk does, and else the last. Of a talk that is left out, the reason.
    pub fn shown_try(&self) -> ShownTry<'_> {
        let shown = if self.verdict() == TalkVerdict::Deviates {
            let mut tries = self.tries.iter();
            tries.rfind(|one| one.verdict == TalkVerdict::Deviates)
        } else {
            self.tries.last()
        };
        match shown {
            Some(one) => ShownTry {
                played: &one.played,
                why: &one.why,
                took: one.took(),
            },
            None => ShownTry {
                played: &[],
                why: self.left_out.map_or("", |why| why.text()),
                took: 0,
            },
        }
    }
}
