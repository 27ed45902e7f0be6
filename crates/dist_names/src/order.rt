//! Names are compared as strings of unsigned bytes, a proper prefix being smaller (our own choice). Their first 32 bytes are
//! compared as four numbers, and what stands behind these only where all are equal, eight bytes at a time.

ghost use Rattle.std.specs.{Prelude.◌≡◌, Prelude.◌==◌, Prelude.IsTrue, List.list_all, Cmp.partial_order_from_own_ties, Cmp.Rules.comparing};
ghost use Rattle.std.specs.{Cmp.Lexicographic.slice_cmp, Cmp.Lexicographic.pointwise, Ordering.nat_cmp, Ordering.as_partial_cmp};
ghost use Rattle.std.proofs.Common.{rules};
ghost use Rattle.dist_names.specs.{Bytes.is_visible, Order.name_cmp};

use crate::front::{behind, front_number};
use crate::name::NodeName;
use std::cmp::Ordering;

// The order of two texts, eight bytes at a time. Eight with which both begin don't count. It stays a call of its own, so that numbers
// are compared without the room that this takes.
#[inline(never)]
fn order_of(ours: &[u8], theirs: &[u8]) -> Ordering
    requires ours { IsTrue (list_all is_visible ours.now) }
    requires theirs { IsTrue (list_all is_visible theirs.now) }
    ensures { result ≡ name_cmp ours.now theirs.now }
{
    if ours.len() < 8 || theirs.len() < 8 {
        return ours.cmp(theirs);
    }
    match front_number(ours).cmp(&front_number(theirs)) {
        Ordering::Equal => order_of(behind(ours, 8), behind(theirs, 8)),
        order => order,
    }
}

impl PartialEq for NodeName {
    ghost eq = { pointwise ◌==◌ };

    ghost laws = { Prim.search (comparing, rules) };

    fn eq(&self, other: &NodeName) -> bool {
        self.cmp(other).is_eq()
    }
}

impl Eq for NodeName {
    ghost laws = { Prim.search (comparing, rules) };
}

impl Ord for NodeName {
    ghost cmp = { slice_cmp nat_cmp };

    ghost total = { Prim.search (comparing, rules) };

    ghost matches_partial_cmp = { Prim.search (comparing, rules) };

    ghost matches_eq = { Prim.search (comparing, rules) };

    fn cmp(&self, other: &NodeName) -> Ordering {
        match self.fronts().cmp(other.fronts()) {
            Ordering::Equal => order_of(behind(self.bytes(), 32), behind(other.bytes(), 32)),
            order => order,
        }
    }
}

impl PartialOrd for NodeName {
    ghost partial_cmp = { as_partial_cmp (slice_cmp nat_cmp) };

    ghost laws = { partial_order_from_own_ties (Prim.search (comparing, rules)) (Prim.search (comparing, rules)) };

    fn partial_cmp(&self, other: &NodeName) -> Option<Ordering> {
        Some(self.cmp(other))
    }
}
