//! The rows of the ends that were given out long ago: one byte for each end that is not forgotten, and beside the bytes the rows
//! of the open ends.
ghost use Rattle.std.specs.Prelude.{◌≡◌, ◌<◌, ◌≤◌, ◌+◌, ◌^◌, ◌++◌, ◌∷◌, [], ℕ, length, drop, nat_eq, slice_get, slice_set, Some, None, OnOk};
ghost use Rattle.std.specs.HashMap.{get};
ghost use Rattle.dist_core_ends.specs.{Keeping.rows_forgotten, Places.IsSlot, Places.all_causes, Places.kept_row};

use crate::slots::EndPlace;
use crate::why::Why;
use std::alloc::{AllocError, Global};
use std::collections::HashMap;
use std::marker::Model;
use std::mem::size_of;

const _: () = prove!(size_of::<Why>() == 1);

/// Rows by their numbers. Contracts see the list of rows, and how many more there is room for.
#[derive(Drop)]
pub struct PastRows {
    /// How many numbers come before those of `causes`: of each, `places` has the row, or the end is closed and nothing is kept.
    base: usize,
    /// From `base` on, for each number the cause of its end's closing, in one byte; the byte of an open end means nothing.
    causes: Vec<Why>,
    /// The rows of the open ends, and of ends below `base` that were closed after the causes below `base` were forgotten.
    places: HashMap<usize, EndPlace>,
}

impl Model for PastRows {
    ghost use Rattle.std.specs.Prelude.{◌-◌, min, length, nat_eq, vec_capacity};
    ghost use Rattle.std.specs.HashMap.{get, spare};
    ghost use Rattle.dist_core_ends.specs.Places.{RowList, rows_from, all_causes, AreWithin};

    ghost Value = { RowList };

    ghost view = { λ r. record {
      items = rows_from (get nat_eq r.places) 0 (all_causes r.base r.causes.items);
      room = min (spare r.places) (vec_capacity r.causes - length r.causes.items);
    } };

    ghost invariant = { λ r. AreWithin r.base r.causes.items (get nat_eq r.places) };
}

impl PastRows {
    /// A list without rows. It takes no memory.
    pub fn new(alloc: Global) -> PastRows
        ensures { result.items ≡ [] }
    {
        PastRows {
            base: 0,
            causes: Vec::new(alloc),
            places: HashMap::new(alloc),
        }
    }

    /// How many rows there are.
    pub fn len(&self) -> usize
        ensures len { result ≡ length self.now.items }
        ensures few { result ≤ 2 ^ 32 }
    {
        self.base + self.causes.len()
    }

    /// The row of this number.
    #[inline(never)]
    pub fn at(&self, i: usize) -> EndPlace
        requires { i < length self.now.items }
        ensures { slice_get self.now.items i ≡ Some result }
    {
        match self.places.get(&i) {
            Some(row) => *row,
            None => EndPlace::Closed(cause_at(self.base, &self.causes, i)),
        }
    }

    /// Closes the open end of this number. It takes no memory.
    #[inline(never)]
    pub fn close(&mut self, i: usize, why: Why)
        requires { IsSlot (slice_get self.old.items i) }
        ensures { self.new.items ≡ slice_set self.old.items i (EndPlace.Closed why) }
    {
        if i < self.base {
            let put: Result<_, _> = self.places.insert(i, EndPlace::Closed(why));
            let _ = put.unwrap();
        } else {
            let _ = self.places.remove(&i);
            self.causes[i - self.base] = why;
        }
    }

    /// Makes room for so many rows more.
    pub fn reserve(&mut self, count: usize) -> Result<(), AllocError>
        ensures same { self.new.items ≡ self.old.items }
        ensures ok { OnOk result (count ≤ self.new.room) }
    {
        self.causes.reserve(count)?;
        self.places.reserve(count)?;
        Ok(())
    }

    /// Adds the row of the next number, for which room was made.
    pub fn push(&mut self, row: EndPlace)
        requires room { 0 < self.old.room }
        requires few { length self.old.items < 2 ^ 32 }
        ensures rows { self.new.items ≡ self.old.items ++ row ∷ [] }
        ensures room { self.old.room ≤ self.new.room + 1 }
    {
        match row {
            EndPlace::Slot(_) => {
                let next = self.base + self.causes.len();
                let added: Result<_, _> = self.places.insert(next, row);
                let _ = added.unwrap();
                self.causes.push_reserved(Why::Ended);
            }
            EndPlace::Closed(why) => self.causes.push_reserved(why),
        }
    }

    /// Forgets why the ends below a number were closed. It takes no memory, and the memory of their causes is used again.
    pub fn forget(&mut self, below: usize)
        ensures { self.new.items ≡ rows_forgotten below self.old.items }
    {
        let last = below.min(self.base + self.causes.len());
        keep_open(&mut self.places, below);
        if self.base < last {
            drop_first(&mut self.causes, last - self.base);
            self.base = last;
        }
    }
}

// The cause of the end of this number, which has no row of its own.
fn cause_at(base: usize, causes: &[Why], i: usize) -> Why
    requires { i < base + length causes.now }
    ensures { slice_get (all_causes base causes.now) i ≡ Some result }
{
    if i < base {
        Why::Ended
    } else {
        causes[i - base]
    }
}

// Drops the rows of closed ends below a number.
fn keep_open(places: &mut HashMap<usize, EndPlace>, below: usize)
    ensures { (q : ℕ) → get nat_eq places.new q ≡ kept_row below q (get nat_eq places.old q) }
{
    places.retain(|i, row| below <= *i || matches!(row, EndPlace::Slot(_)));
}

fn drop_first(causes: &mut Vec<Why>, count: usize)
    requires { count ≤ length causes.old.items }
    ensures { causes.new.items ≡ drop count causes.old.items }
{
    let _ = causes.drain(..count);
}
