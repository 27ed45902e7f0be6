//! A run of happenings.
ghost use Rattle.std.specs.Prelude.{◌≡◌, ◌<◌, length, take, IfOk, IfErr, OnOk};
ghost use Rattle.dist_core_ends.specs.Change.{one_if};
ghost use Rattle.dist_world_model.specs.{Agreement.AllFit, Run.run, Run.count_applied};

use crate::scene::Scene;
use dist_world_model::Happening;
use std::alloc::Global;
use thiserror::Error;

/// A run was cut off since memory ran out: the world stands after the first `done` happenings of the list.
#[derive(Clone, Copy, Debug, PartialEq, Eq, Error)]
#[error("out of memory")]
pub struct Stopped {
    /// How many happenings of the list were tried, whether they applied or not: fewer than it has.
    pub done: usize,
}

fn one_if(applies: bool) -> usize
    ensures { result ≡ one_if applies }
{
    if applies { 1 } else { 0 }
}

impl Scene {
    /// Lets these happenings happen in turn, and returns how many applied. One that does not apply changes nothing.
    #[inline(always)]
    pub fn run(&mut self, alloc: Global, happenings: &[Happening]) -> Result<usize, Stopped>
        ensures after { OnOk result (self.new ≡ run happenings.now self.old) }
        ensures count { IfOk result (λ n. n ≡ count_applied happenings.now self.old) }
        ensures stopped { IfErr result (λ s. (s.done < length happenings.now) × (self.new ≡ run (take s.done happenings.now) self.old)) }
        ensures fit { OnOk result (AllFit happenings.now) }
        ensures fit_so_far { IfErr result (λ s. AllFit (take s.done happenings.now)) }
    {
        let mut count = 0;
        for i in 0..happenings.len() {
            let happening = &happenings[i];
            happening.recall_ranges();
            let Ok(applies) = self.happen(alloc, happening) else {
                return Err(Stopped { done: i });
            };
            count += one_if(applies);
        }
        Ok(count)
    }
}
