//! Whether two nodes have the same entries and the same records.
ghost use Rattle.std.specs.Prelude.{◌≡◌, ◌↔◌, ℕ, IsTrue};
ghost use Rattle.dist_world.specs.Asking.{node_of};
ghost use Rattle.dist_audit.specs.Audit.{entry_at, record_at, IsAlike, HasTables};

use dist_core::Node;
use dist_locked_book::Closed;
use dist_world::World;

fn same_entry_at(ours: &Node, theirs: &Node, k: usize) -> bool
    ensures { IsTrue result ↔ (entry_at ours.now k ≡ entry_at theirs.now k) }
{
    match (ours.entry_at(k), theirs.entry_at(k)) {
        (None, None) => true,
        (Some((peer, entry)), Some((other, others))) => peer.is_same(other) && entry == others,
        _ => false,
    }
}

fn same_record_at(ours: &Node, theirs: &Node, k: usize) -> bool
    ensures { IsTrue result ↔ (record_at ours.now k ≡ record_at theirs.now k) }
{
    match (ours.up_at(k), theirs.up_at(k)) {
        (None, None) => true,
        (Some((id, kept)), Some((other, others))) => id == other && kept.is_same(others),
        _ => false,
    }
}

fn same_entries(ours: &Node, theirs: &Node) -> bool
    ensures { IsTrue result ↔ ((k : ℕ) → entry_at ours.now k ≡ entry_at theirs.now k) }
{
    for k in 0..ours.entries().max(theirs.entries()) {
        if !same_entry_at(ours, theirs, k) {
            return false;
        }
    }
    true
}

fn same_records(ours: &Node, theirs: &Node) -> bool
    ensures { IsTrue result ↔ ((k : ℕ) → record_at ours.now k ≡ record_at theirs.now k) }
{
    for k in 0..ours.ups().max(theirs.ups()) {
        if !same_record_at(ours, theirs, k) {
            return false;
        }
    }
    true
}

// The node of this place has the entries and the records of the closed one.
fn is_alike_at(world: &World, k: usize, closed: &Closed) -> bool
    ensures { IsTrue result ↔ IsAlike closed.now.node (node_of world.now k) }
{
    match world.node(k) {
        Some(node) => same_entries(&closed.node, node) && same_records(&closed.node, node),
        None => false,
    }
}

/// The nodes of the world have the entries and the records of these closed nodes.
pub fn has_tables(world: &World, closed: &[Closed]) -> bool
    ensures { IsTrue result ↔ HasTables world.now closed.now }
{
    for k in 0..closed.len() {
        if !is_alike_at(world, k, &closed[k]) {
            return false;
        }
    }
    true
}
