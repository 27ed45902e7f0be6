//! Where each end is, by its number.
ghost use Rattle.std.specs.Prelude.{◌≡◌, ◌<◌, ◌≤◌, ◌+◌, ◌^◌, ◌++◌, ◌∷◌, [], length, slice_get, slice_set, Some, OnOk, vec_capacity};
ghost use Rattle.dist_core_ends.specs.{Keeping.rows_forgotten, Keeping.without_row_cause, Places.IsSlot};

use crate::past_rows::PastRows;
use crate::slots::EndPlace;
use crate::why::Why;
use std::alloc::{AllocError, Global};
use std::marker::Model;

/// How many rows the array has, while few ends are open, before they become past ones.
const MOST_RECENT: usize = 1_024;

/// Where each end is, by its number. Contracts see the list of rows, and how many more there is room for.
///
/// Most ends are closed soon after they were given out, so the rows of the last ones stand in an array, where a row is found by
/// its number alone. The array is full with 1,024 rows, or with twice as many as ends are open where that is more, so that
/// it has room for all open ends. When it is full, its rows become past ones: from then on a closed end costs one byte, and
/// only an end that is still open takes a place in a map.
///
/// Each event looks here: what concerns the array is inlined in its caller, and what concerns past rows stays a call.
#[derive(Drop)]
pub struct Rows {
    /// The rows of the numbers before those of `recent`.
    past: PastRows,
    /// How many past rows there are, which each look-up compares first.
    before: usize,
    /// The rows of the numbers that were given out last.
    recent: Vec<EndPlace>,
}

impl Model for Rows {
    ghost use Rattle.std.specs.Prelude.{◌≡◌, ◌≤◌, ◌-◌, ◌^◌, ◌++◌, length, vec_capacity};
    ghost use Rattle.dist_core_ends.specs.Places.{RowList};

    ghost Value = { RowList };

    ghost view = { λ r. record { items = r.past.items ++ r.recent.items; room = vec_capacity r.recent - length r.recent.items } };

    ghost invariant = { λ r. (r.before ≡ length r.past.items) × (length (r.past.items ++ r.recent.items) ≤ 2 ^ 32) };
}

impl Rows {
    /// A list without rows. It takes no memory.
    pub fn new(alloc: Global) -> Rows
        ensures { result.items ≡ [] }
    {
        Rows {
            past: PastRows::new(alloc),
            before: 0,
            recent: Vec::new(alloc),
        }
    }

    /// How many rows there are.
    #[inline(always)]
    pub fn len(&self) -> usize
        ensures len { result ≡ length self.now.items }
        ensures few { result ≤ 2 ^ 32 }
    {
        self.before + self.recent.len()
    }

    /// The row of this number.
    #[inline(always)]
    pub fn at(&self, i: usize) -> EndPlace
        requires { i < length self.now.items }
        ensures { slice_get self.now.items i ≡ Some result }
    {
        if i < self.before {
            self.past.at(i)
        } else {
            self.recent[i - self.before]
        }
    }

    /// Closes the open end of this number. It takes no memory.
    #[inline(always)]
    pub fn close(&mut self, i: usize, why: Why)
        requires { IsSlot (slice_get self.old.items i) }
        ensures { self.new.items ≡ slice_set self.old.items i (EndPlace.Closed why) }
    {
        if i < self.before {
            self.past.close(i, why);
        } else {
            self.recent[i - self.before] = EndPlace::Closed(why);
        }
    }

    /// Makes room for one more row, while this many ends are open.
    ///
    /// So at least half of the rows that move are of closed ends, and each row is moved once: on average a call moves as
    /// many rows as it adds.
    #[inline(always)]
    pub fn reserve(&mut self, open: usize) -> Result<(), AllocError>
        ensures same { self.new.items ≡ self.old.items }
        ensures ok { OnOk result (0 < self.new.room) }
    {
        let rows = self.recent.len();
        if rows >= MOST_RECENT && rows / 2 >= open {
            self.past.reserve(rows)?;
            move_rows(&mut self.recent, &mut self.past);
            self.before = self.past.len();
        }
        self.recent.reserve(1)
    }

    /// Adds the row of the next number, for which room was made.
    #[inline(always)]
    pub fn push(&mut self, row: EndPlace)
        requires room { 0 < self.old.room }
        requires few { length self.old.items < 2 ^ 32 }
        ensures { self.new.items ≡ self.old.items ++ row ∷ [] }
    {
        self.recent.push_reserved(row);
    }

    /// Forgets why the ends below a number were closed. It takes no memory, and the memory of their causes is used again.
    pub fn forget(&mut self, below: usize)
        ensures { self.new.items ≡ rows_forgotten below self.old.items }
    {
        self.past.forget(below);
        forget_first(&mut self.recent, below.saturating_sub(self.before));
    }
}

// Moves all rows of an array behind the past ones.
#[cold]
fn move_rows(recent: &mut Vec<EndPlace>, past: &mut PastRows)
    requires room { length recent.old.items ≤ past.old.room }
    requires few { length (past.old.items ++ recent.old.items) ≤ 2 ^ 32 }
    ensures moved { past.new.items ≡ past.old.items ++ recent.old.items }
    ensures empty { recent.new.items ≡ [] }
{
    push_all(past, recent);
    recent.clear();
}

// Adds all rows of an array to the past ones.
fn push_all(past: &mut PastRows, rows: &[EndPlace])
    requires room { length rows.now ≤ past.old.room }
    requires few { length (past.old.items ++ rows.now) ≤ 2 ^ 32 }
    ensures { past.new.items ≡ past.old.items ++ rows.now }
{
    for row in rows {
        past.push(*row);
    }
}

// Forgets the causes in the first rows of an array.
fn forget_first(rows: &mut Vec<EndPlace>, count: usize)
    ensures { rows.new.items ≡ rows_forgotten count rows.old.items }
{
    for i in 0..count.min(rows.len()) {
        rows[i] = without_cause(rows[i]);
    }
}

fn without_cause(row: EndPlace) -> EndPlace
    ensures { result ≡ without_row_cause row }
{
    match row {
        EndPlace::Slot(slot) => EndPlace::Slot(slot),
        EndPlace::Closed(_) => EndPlace::Closed(Why::Ended),
    }
}
