//! A node begins anew, between two steps.
//!
//! The number of an end is given out only once, and a node gives out at most 4,294,967,295: enough for 136 years at one connection
//! a second, and for 25 days at 2,000, as an attacker may make them. So a node that is to last longer is renewed now and then: it
//! is then like one that stopped and started again at once, with the same creation.
ghost use Rattle.std.specs.Prelude.{◌≡◌, ◌↔◌, IsTrue, true, false, count_by};
ghost use Rattle.dist_core_ends.specs.Ends.{is_open};
ghost use Rattle.dist_core.specs.Runs.{opening};

use crate::node::Node;
use dist_core_ends::Ends;
use std::alloc::Global;

impl Node {
    /// Begins anew with the same setup, where no end is open, and returns whether it did. The numbers of ends are given
    /// out from 0 again, steps are counted from 0, and nothing is left of the earlier ends. It takes no memory.
    ///
    /// A caller that gets numbers near the last one first reports all ends as lost, and forgets the numbers that it knew.
    pub fn renew(&mut self, alloc: Global) -> bool
        ensures when { IsTrue result ↔ (count_by is_open self.old.ends ≡ 0) }
        ensures anew { result ≡ true → self.new ≡ opening self.old.setup }
        ensures same { result ≡ false → self.new ≡ self.old }
    {
        if self.open_ends() > 0 {
            return false;
        }
        self.ends = Ends::new(alloc);
        self.steps = 0;
        true
    }
}
