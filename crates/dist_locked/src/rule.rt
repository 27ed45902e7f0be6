//! The rule of the queue, and what each pass knows.
use crossbeam_queue::protocol::{Join, Lesson, Outcome, Protocol, Split};
use std::collections::LinkedList;

/// The number of an order: which dial of the file it is, from 0 in the order of the file.
#[derive(Clone, Copy, PartialEq, Eq)]
pub struct DialOrder(pub u32);

// Which lists a pass knows, and those lists: what was put, and what each worker took, with its places. No value of it is made.
pub struct View {
    pub puts: bool,
    pub first: bool,
    pub second: bool,
    pub put: LinkedList<DialOrder>,
    pub by_first: LinkedList<(u64, DialOrder)>,
    pub by_second: LinkedList<(u64, DialOrder)>,
}

// The rule: what was put is what the workers took, in turn, and then what the queue holds.
pub struct InTurn;

impl Protocol<DialOrder, View> for InTurn {
    ghost use Rattle.std.specs.Prelude.{true, []};
    ghost use Rattle.dist_locked.specs.Rule.{knows, Kept};

    ghost holds = { Kept };

    ghost first = { knows true true true [] [] [] };
}

// Cuts off what the first worker took.
pub struct CutsFirst;

impl Split<View> for CutsFirst {
    ghost use Rattle.dist_locked.specs.Rule.{without_first, only_first};

    ghost left = { without_first };

    ghost right = { only_first };
}

// Cuts off what the second worker took.
pub struct CutsSecond;

impl Split<View> for CutsSecond {
    ghost use Rattle.dist_locked.specs.Rule.{without_second, only_second};

    ghost left = { without_second };

    ghost right = { only_second };
}

// Puts what two passes know together.
pub struct Gathers;

impl Join<View> for Gathers {
    ghost use Rattle.dist_locked.specs.Rule.{together, nothing};

    ghost both = { together };

    ghost spent = { nothing };
}

// The dispatcher puts an order, and sees that what the queue holds was put.
pub struct Puts;

impl Outcome<DialOrder, View> for Puts {
    ghost use Rattle.std.specs.Prelude.{◌≡◌};
    ghost use Rattle.dist_locked.specs.Rule.{with_put};

    ghost then = { λ v x w. w ≡ with_put v x };
}

impl Lesson<DialOrder, View> for Puts {
    ghost use Rattle.std.specs.Prelude.{◌≤◌, length};

    ghost fact = { λ v items. length items ≤ length v.put };
}

// A worker takes an order.
pub struct Takes;

impl Outcome<DialOrder, View> for Takes {
    ghost use Rattle.std.specs.Prelude.{◌≡◌, ℕ};
    ghost use Rattle.dist_locked.specs.Rule.{with_taken};

    ghost then = { λ v x w. (k : ℕ) × (w ≡ with_taken v k x) };
}

impl Lesson<DialOrder, View> for Takes {
    ghost use Rattle.std.specs.Prelude.{⊤};

    ghost fact = { λ v items. ⊤ };
}

// All is known again, and what the queue holds is counted.
pub struct Settles;

impl Lesson<DialOrder, View> for Settles {
    ghost use Rattle.dist_locked.specs.Rule.{Left};

    ghost fact = { λ v items. Left v.put v.by_first v.by_second items };
}
