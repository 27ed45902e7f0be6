//! The verdict that each target showed last.

ghost use Rattle.std.specs.Prelude.{◌≡◌, ◌≤◌, ◌↔◌, length, option_copied, IfOk, OnOk, OnErr, IsSome, not};
ghost use Rattle.dist_cluster.specs.Watching.{watching, verdict_of, after_one, is_other, report};

use crate::change::{Observation, VerdictChange};
use crate::watch_error::WatchError;
use dist_names::ByteString;
use std::alloc::{AllocError, Global};
use std::marker::Model;

/// A watch of targets. Contracts see the list of the verdicts that the targets showed last.
#[derive(Drop)]
pub struct Watch {
    // Where verdicts that are kept are copied to.
    alloc: Global,
    verdicts: Vec<Option<ByteString>>,
}

impl Model for Watch {
    ghost use Rattle.std.specs.Prelude.{ℕ, List, Option};

    ghost Value = { List (Option (List ℕ)) };

    ghost view = { λ w. w.verdicts.items };
}

impl Watch {
    /// A watch of this many targets, without observations.
    pub fn new(alloc: Global, targets: usize) -> Result<Watch, AllocError>
        ensures { IfOk result (λ watch. watch ≡ watching targets) }
    {
        let mut verdicts = Vec::with_capacity(alloc, targets)?;
        for _ in 0..targets {
            verdicts.push(None)?;
        }
        Ok(Watch { alloc, verdicts })
    }

    /// How many targets it has.
    pub fn targets(&self) -> usize
        ensures { result ≡ length self.now }
    {
        self.verdicts.len()
    }

    /// The verdict that a target showed last. `None` where it was not observed, or there is no such target.
    pub fn verdict(&self, target: usize) -> Option<&ByteString>
        ensures { option_copied result ≡ verdict_of self.now target }
    {
        self.verdicts.get(target)?.as_ref()
    }

    // Whether the target showed this verdict last.
    fn is_known(&self, seen: &Observation) -> bool
        ensures { result ≡ not (is_other (verdict_of self.now seen.now.target) seen.now.verdict) }
    {
        self.verdict(seen.target)
            .is_some_and(|last| last.is_same(&seen.verdict))
    }

    /// Takes an observation and returns the change of verdict, or `None` if the target showed the same verdict last. Refuses a
    /// target that the watch does not have first, then reports that memory ran out; a refusal changes nothing.
    pub fn observe(&mut self, seen: Observation) -> Result<Option<VerdictChange>, WatchError>
        ensures change { IfOk result (λ change. change ≡ report (verdict_of self.old seen.target) seen) }
        ensures after { OnOk result (self.new ≡ after_one self.old seen) }

        ensures stranger { (result ≡ Err WatchError.NoSuchTarget) ↔ (length self.old ≤ seen.target) }

        // Memory runs out only at a change.
        ensures memory { result ≡ Err WatchError.NoMemory → IsSome (report (verdict_of self.old seen.target) seen) }
        ensures err { OnErr result (self.new ≡ self.old) }
    {
        if seen.target >= self.verdicts.len() {
            return Err(WatchError::NoSuchTarget);
        }
        if self.is_known(&seen) {
            return Ok(None);
        }
        let kept = seen.verdict.try_clone(self.alloc)?;
        let before = self.verdicts[seen.target].replace(kept);
        Ok(Some(VerdictChange {
            target: seen.target,
            at: seen.at,
            before,
            after: seen.verdict,
        }))
    }
}
