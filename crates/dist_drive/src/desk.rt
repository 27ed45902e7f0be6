use dist_core::{Event, Reply, StepError, Still};
use dist_peers::EndId;

/// A place at which the events of one end are handed on to its node, and which keeps each step that was made there.
///
/// Its meaning is what it was made of and the end that it is for, which no step changes, and what it says of itself: the
/// list of its own steps so far, how it may say that an end stands, and what it may refuse.
pub trait Desk {
    ghost use Rattle.std.specs.Prelude.{◌≡◌, ◌≢◌, [], ◌∷◌, ◌++◌, Some, Err, OnOk, OnErr, IfErr, option_copied, IsTrue};
    ghost use Rattle.dist_peers.specs.declared.entry.EndId.{EndId};
    ghost use Rattle.dist_core.specs.declared.event.Event.{Event};
    ghost use Rattle.dist_core.specs.declared.reply.Reply.{Reply};
    ghost use Rattle.dist_core.specs.Clauses.{end_of};
    ghost use Rattle.dist_drive.specs.Desks.{DeskFacts, last_reply};
    ghost use Rattle.dist_core.specs.Losses.{IsGone, is_loss};

    /// What the desk was made of. It is there for proofs alone.
    type Base;

    ghost base: { Self → Self.Base };

    ghost serves: { Self → EndId };

    ghost facts: { DeskFacts Self };

    /// Hands an event on, with the number that was drawn for it. A refusal changes nothing. That the end is lost is
    /// refused only where the end is unknown or closed, and every event that doesn't name the desk's end is refused.
    fn step(&mut self, event: Event, fresh: u32) -> Result<(), StepError>
        ensures ok { OnOk result ((reply : Reply) × (facts.list self.new ≡ facts.list self.old ++ (event, fresh, reply) ∷ [])) }
        ensures err { OnErr result (self.new ≡ self.old) }
        ensures refused { IfErr result (λ e. facts.refusal self.old event fresh e) }
        ensures loss { IsTrue (is_loss event) → IfErr result IsGone }
        ensures other { end_of event ≢ Some (serves self.old) → result ≡ Err StepError.NoSuchEnd }
        ensures base { base self.new ≡ base self.old }
        ensures serves { serves self.new ≡ serves self.old };

    /// The newest reply.
    fn last(&self) -> Option<&Reply>
        ensures { option_copied result ≡ last_reply (facts.list self.now) };

    /// How an end stands, as the desk reports it.
    fn still(&self, end_: EndId) -> Still
        ensures { facts.standing self.now end_ result };
}
