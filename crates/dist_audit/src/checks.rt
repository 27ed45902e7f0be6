//! What is wrong with the tickets of histories.
ghost use Rattle.std.specs.{Prelude.◌≡◌, Prelude.ℕ, Prelude.◌||◌, Prelude.IfOk, Prelude.OnOk, List.list_any, Ordering.nat_cmp, BTreeSet.contains};
ghost use Rattle.dist_audit.specs.Faults.{starts_above, rises, falls, has_ticket, twice};

use dist_locked_book::{Closed, SharedLine};
use std::alloc::{AllocError, Global};
use std::collections::BTreeSet;

fn starts_above(history: &[SharedLine], ticket: u64) -> bool
    ensures { result ≡ starts_above ticket history.now }
{
    match history.first() {
        Some(line) => ticket < line.ticket(),
        None => true,
    }
}

fn rises(history: &[SharedLine]) -> bool
    ensures { result ≡ rises history.now }
{
    for i in 0..history.len() {
        if !starts_above(&history[i + 1..], history[i].ticket()) {
            return false;
        }
    }
    true
}

/// In some history tickets do not rise.
pub fn falls(closed: &[Closed]) -> bool
    ensures { result ≡ falls closed.now }
{
    for one in closed {
        if !rises(&one.history) {
            return true;
        }
    }
    false
}

// A ticket of this history is among those.
fn has_one_of(tickets: &BTreeSet<u64>, history: &[SharedLine]) -> bool
    ensures { result ≡ list_any (λ l. contains nat_cmp tickets.now l.ticket) history.now }
{
    for line in history {
        if tickets.contains(&line.ticket()) {
            return true;
        }
    }
    false
}

fn add_all(tickets: &mut BTreeSet<u64>, history: &[SharedLine]) -> Result<(), AllocError>
    ensures { OnOk result ((n : ℕ) → contains nat_cmp tickets.new n ≡ (has_ticket n history.now || contains nat_cmp tickets.old n)) }
{
    for line in history {
        tickets.insert(line.ticket())?;
    }
    Ok(())
}

/// A ticket stands in two histories.
pub fn twice(alloc: Global, closed: &[Closed]) -> Result<bool, AllocError>
    ensures { IfOk result (λ b. b ≡ twice closed.now) }
{
    let mut later = BTreeSet::new(alloc);
    for i in (0..closed.len()).rev() {
        if has_one_of(&later, &closed[i].history) {
            return Ok(true);
        }
        add_all(&mut later, &closed[i].history)?;
    }
    Ok(false)
}
