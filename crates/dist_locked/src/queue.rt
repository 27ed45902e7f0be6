ghost use Rattle.std.specs.Prelude.{◌≡◌, ◌≢◌, ◌<◌, ◌≤◌, ◌∷◌, [], ◌++◌, length, true, false, IfOk, IfErr, IfSome, IfNone, OnOk, OnErr};
ghost use Rattle.dist_locked.specs.Orders.{TakesOne, AreLeft};

use super::rule::{CutsFirst, CutsSecond, DialOrder, Gathers, InTurn, Puts, Settles, Takes, View};
use crossbeam_queue::{Pass, RuledArrayQueue};
use std::alloc::{AllocError, Global};
use std::marker::Model;
use std::sync::Wait;

/// A queue of orders, from one dispatcher to two workers, with room for 1 to 1,024 of them.
///
/// Each order that was put is taken once at most, the oldest first, and none is lost: [`Orders::settle`] says so of the
/// passes once the threads have ended.
#[derive(Drop)]
pub struct Orders {
    queue: RuledArrayQueue<DialOrder, View, InTurn>,
}

impl Model for Orders {
    ghost use Rattle.dist_locked.specs.Passes.{OrdersState};

    ghost Value = { OrdersState };

    ghost view = { λ o. record { table = o.queue.table.shared.table_id; capacity = o.queue.cap } };
}

/// The right to put orders. Contracts see what was put.
#[derive(Drop)]
pub struct PutPass {
    pass: Pass<DialOrder, View>,
}

impl Model for PutPass {
    ghost use Rattle.std.specs.Prelude.{◌≡◌, []};
    ghost use Rattle.crossbeam_queue.specs.Passes.{view as view_of};
    ghost use Rattle.dist_locked.specs.Passes.{PutState, putting};

    ghost Value = { PutState };

    ghost view = { λ p. record { table = p.pass.table_id; put = (view_of p.pass).put } };

    ghost invariant = { λ p. (p.pass.me.1 ≡ []) × (view_of p.pass ≡ putting (view_of p.pass).put) };
}

/// A worker's right to take orders. Contracts see what this worker took, each order with its place among all that were put.
#[derive(Drop)]
pub struct TakePass {
    pass: Pass<DialOrder, View>,
}

impl Model for TakePass {
    ghost use Rattle.std.specs.Prelude.{◌≡◌, []};
    ghost use Rattle.crossbeam_queue.specs.Passes.{view as view_of};
    ghost use Rattle.dist_locked.specs.Passes.{TakeState, taken_in, working};

    ghost Value = { TakeState };

    ghost view = { λ p. record { table = p.pass.table_id; second = (view_of p.pass).second; taken = taken_in (view_of p.pass) } };

    ghost invariant = { λ p. (p.pass.me.1 ≡ []) × (view_of p.pass ≡ working (view_of p.pass).second (taken_in (view_of p.pass))) };
}

impl Orders {
    /// An empty queue with room for `capacity` orders, and its passes: the dispatcher's, the first worker's and the
    /// second's.
    pub fn new(
        alloc: Global,
        capacity: usize,
    ) -> Result<(Orders, PutPass, TakePass, TakePass), AllocError>
        // The capacity is a number of the caller's own program.
        requires { (0 < capacity) × (capacity ≤ 1024) }

        ensures capacity { IfOk result (λ r. r.0.capacity ≡ capacity) }
        ensures passes { IfOk result (λ r. (r.1.table ≡ r.0.table) × (r.2.table ≡ r.0.table) × (r.3.table ≡ r.0.table)) }
        ensures workers { IfOk result (λ r. (r.2.second ≡ false) × (r.3.second ≡ true)) }
        ensures nothing_put { IfOk result (λ r. r.1.put ≡ []) }
        ensures nothing_taken { IfOk result (λ r. (r.2.taken ≡ []) × (r.3.taken ≡ [])) }
    {
        let (queue, mut pass) = RuledArrayQueue::ruled(alloc, capacity)?;
        let first = queue.another::<CutsFirst>(&mut pass);
        let second = queue.another::<CutsSecond>(&mut pass);
        Ok((
            Orders { queue },
            PutPass { pass },
            TakePass { pass: first },
            TakePass { pass: second },
        ))
    }

    /// Puts an order behind the others. It comes back where the queue is full. It takes no memory.
    pub fn put<R: Wait>(
        &self,
        rt: &R,
        pass: &mut PutPass,
        order: DialOrder,
    ) -> Result<(), DialOrder>
        // `new` gave the pass together with this queue.
        requires { pass.old.table ≡ self.now.table }

        ensures pass { pass.new.table ≡ pass.old.table }
        ensures put { OnOk result (pass.new.put ≡ pass.old.put ++ order ∷ []) }

        ensures back { IfErr result (λ refused. refused ≡ order) }
        ensures unchanged { OnErr result (pass.new.put ≡ pass.old.put) }
        ensures full { OnErr result (self.now.capacity ≤ length pass.old.put) }
    {
        self.queue.push_as::<Puts, R>(rt, &mut pass.pass, order)
    }

    /// Takes the oldest order, where there is one. It takes no memory.
    pub fn take<R: Wait>(&self, rt: &R, pass: &mut TakePass) -> Option<DialOrder>
        // `new` gave the pass together with this queue.
        requires { pass.old.table ≡ self.now.table }

        ensures pass { (pass.new.table ≡ pass.old.table) × (pass.new.second ≡ pass.old.second) }
        ensures taken { IfSome result (TakesOne pass.old.taken pass.new.taken) }
        ensures unchanged { IfNone result (pass.new.taken ≡ pass.old.taken) }
    {
        self.queue.pop_as::<Takes, R>(rt, &mut pass.pass)
    }

    /// How many orders are left. All others were taken, in turn and each once. It takes no memory.
    pub fn settle<R: Wait>(self, rt: &R, put: PutPass, one: TakePass, two: TakePass) -> u64
        // `new` gave the three passes together with this queue.
        requires passes { (put.table ≡ self.table) × (one.table ≡ self.table) × (two.table ≡ self.table) }
        // One of them is the first worker's, the other the second's.
        requires workers { one.second ≢ two.second }

        ensures { AreLeft put.put one.taken two.taken result }
    {
        let Orders { queue } = self;
        let PutPass { mut pass } = put;
        let TakePass { pass: first } = one;
        let TakePass { pass: second } = two;
        queue.absorb::<Gathers>(&mut pass, first);
        queue.absorb::<Gathers>(&mut pass, second);
        queue.len_as::<Settles, R>(rt, &mut pass) as u64
    }
}
