//! The judgement.

ghost use Rattle.std.specs.{Prelude.◌≡◌, Prelude.◌<◌, Prelude.◌+◌, Prelude.◌^◌, Prelude.unwrap_or, List.list_any};
ghost use Rattle.dist_conformance.specs.Judging.{observation_of, no_passage, joined, sequence_of, outcomes_of};
ghost use Rattle.dist_conformance.specs.Judging.{first_passage, is_open, first_failure, judgement_of};
ghost use Rattle.dist_conformance.specs.{Alternatives.with_one, declared.outcomes.Deviation.TheVariants.Silent};

use crate::lists::SuiteList;
use crate::outcomes::{Deviation, Observed, Passage, PatternOutcome, outcome_of};
use crate::patterns::Pattern;
use crate::steps::Demand;

/// What a demand comes to.
#[derive(Clone, Copy)]
pub enum Judgement {
    /// A wanted alternative matches.
    Kept(Passage),
    /// No wanted one matches any more, and a loose one does.
    Loose(Passage),
    /// None matches, for this reason: why the first wanted alternative that fails does so; `Silent` where all are only late.
    Deviates(Deviation),
    /// It is not decided yet.
    More,
}

const NO_PASSAGE: Passage = Passage {
    count: 0,
    number: None,
    flags: None,
};

// One passage, and one behind it.
fn join(first: Passage, second: Passage) -> Passage
    requires { first.count + second.count < 2 ^ 64 }
    ensures { result ≡ joined first second }
{
    Passage {
        count: first.count + second.count,
        number: second.number.or(first.number),
        flags: if second.number.is_some() {
            second.flags
        } else {
            first.flags
        },
    }
}

// What patterns make of what came, one behind the other.
fn sequence_outcome(patterns: &[Pattern], observed: &Observed<'_>) -> PatternOutcome
    ensures { result ≡ sequence_of (observation_of observed.now) no_passage patterns.now }
{
    let mut passage = NO_PASSAGE;
    for pattern in patterns {
        match outcome_of(pattern, observed, &observed.came[passage.count..]) {
            PatternOutcome::Matches(next) => passage = join(passage, next),
            other => return other,
        }
    }
    PatternOutcome::Matches(passage)
}

// What alternatives come to: the first that matches, whether one is not decided yet, and why the first fails that does.
#[derive(Clone, Copy)]
struct Alternatives {
    passage: Option<Passage>,
    is_undecided: bool,
    failure: Option<Deviation>,
}

impl Alternatives {
    // One alternative more.
    fn add(self, outcome: PatternOutcome) -> Alternatives
        ensures { result ≡ with_one self outcome }
    {
        match outcome {
            PatternOutcome::Matches(passage) => Alternatives {
                passage: self.passage.or(Some(passage)),
                ..self
            },
            PatternOutcome::Fails(failure) => Alternatives {
                failure: self.failure.or(Some(failure)),
                ..self
            },
            PatternOutcome::Open => Alternatives {
                is_undecided: true,
                ..self
            },
        }
    }
}

fn alternatives_of(alternatives: &[SuiteList<Pattern>], observed: &Observed<'_>) -> Alternatives
    ensures passage { result.passage ≡ first_passage (outcomes_of (observation_of observed.now) alternatives.now) }
    ensures undecided { result.is_undecided ≡ list_any is_open (outcomes_of (observation_of observed.now) alternatives.now) }
    ensures failure { unwrap_or result.failure Silent ≡ first_failure (outcomes_of (observation_of observed.now) alternatives.now) }
{
    let mut all = Alternatives {
        passage: None,
        is_undecided: false,
        failure: None,
    };
    for patterns in alternatives {
        all = all.add(sequence_outcome(patterns.as_slice(), observed));
    }
    all
}

/// What a demand comes to, as far as it can be said: the first wanted alternative that matches; `More` as long as one of them can still
/// match and there is time; then the same of the loose ones.
///
/// It is a function of all bytes that came, so it does not depend on the pieces in which they came. Call it again whenever something
/// came, until it is decided. Its laws are in [`decided_in_the_end`](crate::decided_in_the_end),
/// [`kept_by_a_match`](crate::kept_by_a_match) and [`deviates_for_good`](crate::deviates_for_good).
pub fn judge(demand: &Demand, observed: &Observed<'_>) -> Judgement
    ensures { result ≡ judgement_of demand.now (observation_of observed.now) }
{
    let wanted = alternatives_of(demand.wanted.as_slice(), observed);
    let loose = alternatives_of(demand.loose.as_slice(), observed);
    let in_time = observed.elapsed < observed.limit;
    if let Some(passage) = wanted.passage {
        return Judgement::Kept(passage);
    }
    if in_time && wanted.is_undecided {
        return Judgement::More;
    }
    if let Some(passage) = loose.passage {
        return Judgement::Loose(passage);
    }
    if in_time && loose.is_undecided {
        Judgement::More
    } else {
        Judgement::Deviates(wanted.failure.unwrap_or(Deviation::Silent))
    }
}
