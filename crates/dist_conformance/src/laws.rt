//! Laws of the judgement: each is a function that does nothing, and whose contract is the law.

ghost use Rattle.std.specs.{Prelude.◌≡◌, Prelude.◌≤◌, Prelude.◌<◌, Prelude.ℕ, Prelude.true, Prelude.List, Prelude.Contains, List.list_all};
ghost use Rattle.dist_conformance.specs.Judging.{Observation, outcome_of, sequence_of, no_passage, judgement_of};
ghost use Rattle.dist_conformance.specs.Later.{IsLater, WithoutPackets, looks_at_bytes, IsOfChallenges, IsChallenge};
ghost use Rattle.dist_conformance.specs.declared.{shapes.Shape.Shape, steps.Demand.Demand, patterns.Check.Check, patterns.Pattern.Pattern};
ghost use Rattle.dist_conformance.specs.declared.outcomes.{Passage.Passage, Deviation.Deviation};
ghost use Rattle.dist_conformance.specs.declared.patterns.Pattern.TheVariants as pattern;
ghost use Rattle.dist_conformance.specs.declared.outcomes.PatternOutcome.TheVariants as outcome;
ghost use Rattle.dist_conformance.specs.declared.judging.Judgement.TheVariants as judgement;

use crate::shapes::{CHALLENGE, Shape};

/// The judgement is decided once the connection has ended, and once the time is over.
pub fn decided_in_the_end()
    ensures ended { (demand : Demand) (o : Observation) → o.ended ≡ true → judgement_of demand o ≡ judgement.More → ⊥ }
    ensures late { (demand : Demand) (o : Observation) → o.limit ≤ o.elapsed → judgement_of demand o ≡ judgement.More → ⊥ }
{}

/// Nothing is kept but by a wanted alternative that matches what came.
pub fn kept_by_a_match()
    ensures { (demand : Demand) (o : Observation) (p : Passage) → judgement_of demand o ≡ judgement.Kept p →
        (patterns : List Pattern) × Contains demand.wanted patterns × (sequence_of o no_passage patterns ≡ outcome.Matches p) }
{}

/// What deviates before the time is over deviates for good, whatever comes and in whatever pieces, and for the same reason. Patterns
/// `packets` are left out: they fail where a packet has come in part and nothing followed for a time.
pub fn deviates_for_good()
    ensures { (demand : Demand) (o later : Observation) (why : Deviation) → WithoutPackets demand → IsLater o later → o.elapsed < o.limit →
        judgement_of demand o ≡ judgement.Deviates why → judgement_of demand later ≡ judgement.Deviates why }
{}

/// Patterns that look at bytes alone match for good, and through the same bytes, whatever comes behind them.
pub fn matches_for_good()
    ensures { (patterns : List Pattern) (o later : Observation) (p : Passage) → IsLater o later →
        list_all looks_at_bytes patterns ≡ true → sequence_of o no_passage patterns ≡ outcome.Matches p →
        sequence_of later no_passage patterns ≡ outcome.Matches p }
{}

/// The shape of a challenge of version 6.
pub fn challenge_shape() -> Shape
    ensures { IsOfChallenges result }
{
    CHALLENGE
}

/// The pattern of a challenge matches only where a challenge came, as the ERTS User's Guide has it.
pub fn challenges_are_spelled()
    ensures { (shape : Shape) (checks : List Check) (o : Observation) (came : List ℕ) (p : Passage) → IsOfChallenges shape →
        outcome_of (pattern.Message shape checks) o came ≡ outcome.Matches p → IsChallenge came p }
{}
