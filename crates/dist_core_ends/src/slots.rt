//! Where ends are kept: open ends in slots that are used again; of a closed end only its cause.
ghost use Rattle.std.specs.Prelude.{◌≡◌, ◌<◌, ◌≤◌, ◌+◌, ◌^◌, ◌++◌, ◌∷◌, [], length, slice_get, slice_set, count_by, true, Some, None, IsOk, OnOk};
ghost use Rattle.std.specs.Option.{option_map};
ghost use Rattle.slab.specs.Slab.{ContainsKey, HasRoomFor};
ghost use Rattle.dist_core_ends.specs.Ends.{is_open, Finds, end_id, first_of};
ghost use Rattle.dist_core_ends.specs.Change.{put_end, with_change, claim_at, StaysClosed, OtherStaysClosed, IsThere};
ghost use Rattle.dist_core_ends.specs.Keeping.{in_slot, Refills, Empties, GivesRow, IsPast, is_sought, finds_sought};
ghost use Rattle.dist_core_ends.specs.Progress.{at_stage, replaced_end, IsAttempt, IsAttemptWith};
ghost use Rattle.dist_core_ends.specs.{Forgetting.without_causes_below, declared.known.Attempt.Attempt};

use crate::known::{End, Stage, UpRecord};
use crate::phase::Absent;
use crate::rows::Rows;
use crate::why::Why;
use dist_peers::EndId;
use slab::Slab;
use std::alloc::{AllocError, Global};
use std::marker::Model;

/// Where an end is, by its number.
#[derive(Clone, Copy, PartialEq, Eq)]
pub enum EndPlace {
    /// The end is open, and stands in this slot.
    Slot(usize),
    /// The end is closed, for this cause.
    Closed(Why),
}

/// Which ends are sought: those that are open and not up, or only those of them on which no name came.
#[derive(Clone, Copy, PartialEq, Eq)]
pub enum Sought {
    Pending,
    Nameless,
}

/// All ends, by their numbers from 0. Contracts see the list of ends, and for how many more there is room.
#[derive(Drop)]
pub struct EndList {
    /// For each number that was given out, the slot of its end or the cause of its closing.
    rows: Rows,
    /// The open ends.
    slots: Slab<End>,
}

impl Model for EndList {
    ghost use Rattle.std.specs.Prelude.{◌-◌, min};
    ghost use Rattle.slab.specs.Slab.{slab_len};
    ghost use Rattle.dist_core_ends.specs.Keeping.{RoomyEnds, ends_of_rows, AreKept};

    ghost Value = { RoomyEnds };

    ghost view = { λ l. record {
      items = ends_of_rows l.rows.items l.slots.slots;
      room = min l.rows.room (l.slots.capacity - slab_len l.slots);
    } };

    ghost invariant = { λ l. AreKept l.rows.items l.slots.slots };
}

impl EndList {
    /// A list without ends. It takes no memory.
    pub fn new(alloc: Global) -> EndList
        ensures { result.items ≡ [] }
    {
        EndList {
            rows: Rows::new(alloc),
            slots: Slab::new(alloc),
        }
    }

    /// How many ends there are, open or closed.
    #[inline(always)]
    pub fn len(&self) -> usize
        ensures len { result ≡ length self.now.items }
        ensures few { result ≤ 2 ^ 32 }
    {
        self.rows.len()
    }

    /// How many ends are open.
    #[inline(always)]
    pub fn open_ends(&self) -> usize
        ensures { result ≡ count_by is_open self.now.items }
    {
        self.slots.len()
    }

    /// The end of this number, where it is open.
    #[inline(always)]
    pub fn at(&self, id: EndId) -> Result<&End, Absent>
        ensures { Finds result (slice_get self.now.items id.0) }
    {
        let i = id.0 as usize;
        if self.rows.len() <= i {
            return Err(Absent::NoSuchEnd);
        }
        match self.rows.at(i) {
            EndPlace::Slot(slot) => Ok(&self.slots[slot]),
            EndPlace::Closed(why) => Err(Absent::Gone(why)),
        }
    }

    /// Makes room for one more end.
    #[inline(always)]
    pub fn reserve(&mut self) -> Result<(), AllocError>
        ensures same { self.new.items ≡ self.old.items }
        ensures ok { OnOk result (0 < self.new.room) }
    {
        self.rows.reserve(self.slots.len())?;
        self.slots.reserve(1)?;
        Ok(())
    }

    /// Makes room for the end of this number, where it is the next one.
    pub fn reserve_for(&mut self, id: EndId) -> Result<(), AllocError>
        ensures same { self.new.items ≡ self.old.items }
        ensures ok { OnOk result (length self.old.items ≤ id.0 → 0 < self.new.room) }
        ensures known { id.0 < length self.old.items → IsOk result }
    {
        if self.len() <= id.0 as usize {
            self.reserve()
        } else {
            Ok(())
        }
    }

    /// Adds an end, for which room was made.
    #[inline(always)]
    pub fn push(&mut self, end: End)
        requires room { 0 < self.old.room }
        requires few { length self.old.items < 2 ^ 32 }
        ensures { self.new.items ≡ self.old.items ++ end ∷ [] }
    {
        let row = keep(&mut self.slots, end);
        self.rows.push(row);
    }

    /// Closes the end of this number, and returns the end that was open. One that was closed stays so, for the cause that it had.
    #[inline(always)]
    pub fn close(&mut self, id: EndId, why: Why) -> Option<End>
        requires there { id.0 < length self.old.items }
        requires stays { StaysClosed (slice_get self.old.items id.0) (End.Closed why) }
        ensures ends { self.new.items ≡ slice_set self.old.items id.0 (End.Closed why) }
        ensures was { claim_at result ≡ claim_at (slice_get self.old.items id.0) }
    {
        let i = id.0 as usize;
        match self.rows.at(i) {
            EndPlace::Slot(slot) => {
                let closed = empty(&mut self.slots, slot);
                self.rows.close(i, why);
                closed
            }
            EndPlace::Closed(_) => None,
        }
    }

    // Puts an end in the place of one that is there.
    fn put(&mut self, id: EndId, end: End)
        requires there { id.0 < length self.old.items }
        requires stays { StaysClosed (slice_get self.old.items id.0) end }
        ensures { self.new.items ≡ slice_set self.old.items id.0 end }
    {
        match end {
            End::Closed(why) => {
                let _closed = self.close(id, why);
            }
            end => self.fill(id, end),
        }
    }

    // Puts an open end in the place of one that is open.
    #[inline(always)]
    fn fill(&mut self, id: EndId, end: End)
        requires there { id.0 < length self.old.items }
        requires open_ { is_open end ≡ true }
        requires stays { StaysClosed (slice_get self.old.items id.0) end }
        ensures { self.new.items ≡ slice_set self.old.items id.0 end }
    {
        if let EndPlace::Slot(slot) = self.rows.at(id.0 as usize) {
            refill(&mut self.slots, slot, end);
        }
    }

    // Puts an end in its place, which may be the next one.
    #[inline(always)]
    fn set(&mut self, id: EndId, end: End)
        requires place { id.0 ≤ length self.old.items }
        requires stays { StaysClosed (slice_get self.old.items id.0) end }
        requires room { length self.old.items ≤ id.0 → 0 < self.old.room }
        requires few { length self.old.items < 2 ^ 32 }
        ensures { self.new.items ≡ put_end self.old.items id.0 end }
    {
        if (id.0 as usize) < self.len() {
            self.put(id, end);
        } else {
            self.push(end);
        }
    }

    /// Changes an end, or adds the next one, for which room was made, and at most one other with it.
    pub fn change(&mut self, id: EndId, this: End, other: Option<(EndId, End)>)
        requires place { id.0 ≤ length self.old.items }
        requires stays { StaysClosed (slice_get self.old.items id.0) this }
        requires other { IsThere self.old.items other }
        requires other_stays { OtherStaysClosed (put_end self.old.items id.0 this) other }
        requires room { length self.old.items ≤ id.0 → 0 < self.old.room }
        requires few { length self.old.items < 2 ^ 32 }
        ensures { self.new.items ≡ with_change self.old.items id this other }
    {
        self.set(id, this);
        if let Some((x, end)) = other {
            self.put(x, end);
        }
    }

    /// Puts the attempt of this number to another stage.
    pub fn advance(&mut self, id: EndId, to: Stage)
        requires { IsAttempt (slice_get self.old.items id.0) }
        ensures { (a : Attempt) → slice_get self.old.items id.0 ≡ Some (End.Attempt a)
            → self.new.items ≡ slice_set self.old.items id.0 (End.Attempt (at_stage a to)) }
    {
        if let EndPlace::Slot(slot) = self.rows.at(id.0 as usize) {
            restage(&mut self.slots, slot, to);
        }
    }

    // Makes the attempt of this number an end that is up.
    fn come_up(&mut self, id: EndId, kept: &UpRecord)
        requires { IsAttemptWith (slice_get self.old.items id.0) kept.now.peer }
        ensures { self.new.items ≡ slice_set self.old.items id.0 (End.Up kept.now) }
    {
        if let EndPlace::Slot(slot) = self.rows.at(id.0 as usize) {
            complete(&mut self.slots, slot, kept);
        }
    }

    /// Makes the attempt of this number an end that is up, and closes the end that it replaces, if any.
    pub fn rise(&mut self, id: EndId, kept: &UpRecord, replaced: Option<EndId>)
        requires attempt { IsAttemptWith (slice_get self.old.items id.0) kept.now.peer }
        requires there { IsThere self.old.items (replaced_end replaced) }
        requires stays { OtherStaysClosed (put_end self.old.items id.0 (End.Up kept.now)) (replaced_end replaced) }
        ensures { self.new.items ≡ with_change self.old.items id (End.Up kept.now) (replaced_end replaced) }
    {
        self.come_up(id, kept);
        if let Some(x) = replaced {
            let _closed = self.close(x, Why::Replaced);
        }
    }

    /// Forgets why the ends below this number were closed.
    pub fn forget(&mut self, below: EndId)
        ensures { self.new.items ≡ without_causes_below below.0 self.old.items }
    {
        self.rows.forget(below.0 as usize);
    }

    /// The first end of this kind, sought from a number below which there is none. The number rises to that end's; without one, to
    /// the number of all ends.
    pub fn first(&self, from: &mut usize, sought: Sought) -> Option<EndId>
        requires { IsPast sought self.now.items from.old }
        ensures first { result ≡ option_map end_id (first_of (is_sought sought) self.now.items) }
        ensures past { IsPast sought self.now.items from.new }
    {
        *from = self.first_sought(*from, sought);
        if *from < self.len() {
            Some(EndId(*from as u32))
        } else {
            None
        }
    }

    // The number of the first end of this kind, sought from this number; without one, how many ends there are.
    fn first_sought(&self, from: usize, sought: Sought) -> usize
        requires { IsPast sought self.now.items from }
        ensures past { IsPast sought self.now.items result }
        ensures here { result < length self.now.items → finds_sought sought (slice_get self.now.items result) ≡ true }
    {
        for i in from..self.len() {
            if self.is_sought(EndId(i as u32), sought) {
                return i;
            }
        }
        self.len()
    }

    // Whether the end of this number is of this kind.
    fn is_sought(&self, id: EndId, sought: Sought) -> bool
        ensures { result ≡ finds_sought sought (slice_get self.now.items id.0) }
    {
        match self.at(id) {
            Ok(End::Unnamed) => true,
            Ok(End::Attempt(_)) => sought == Sought::Pending,
            _ => false,
        }
    }
}

// Puts another end in a slot.
fn refill(slots: &mut Slab<End>, slot: usize, end: End)
    requires { ContainsKey slots.old slot }
    ensures { Refills slots.old slots.new slot end }
{
    if let Some(place) = slots.get_mut(slot) {
        *place = end;
    }
}

// Puts the attempt in a slot to another stage.
fn restage(slots: &mut Slab<End>, slot: usize, to: Stage)
    ensures { (a : Attempt) → in_slot slots.old.slots slot ≡ Some (End.Attempt a) → Refills slots.old slots.new slot (End.Attempt (at_stage a to)) }
{
    if let Some(end) = slots.get_mut(slot) {
        end.go_on(to);
    }
}

// Makes the attempt in a slot an end that is up.
fn complete(slots: &mut Slab<End>, slot: usize, kept: &UpRecord)
    ensures { (a : Attempt) → in_slot slots.old.slots slot ≡ Some (End.Attempt a) → a.peer ≡ kept.now.peer
        → Refills slots.old slots.new slot (End.Up kept.now) }
{
    if let Some(end) = slots.get_mut(slot) {
        end.come_up(kept);
    }
}

// Empties a slot, and returns the end that it had.
#[inline(always)]
fn empty(slots: &mut Slab<End>, slot: usize) -> Option<End>
    requires { ContainsKey slots.old slot }
    ensures was { result ≡ in_slot slots.old.slots slot }
    ensures empty { Empties slots.old slots.new slot }
{
    slots.try_remove(slot)
}

// Makes the row of a further end, which gets a slot where it is open.
#[inline(always)]
fn keep(slots: &mut Slab<End>, end: End) -> EndPlace
    requires { HasRoomFor slots.old 1 }
    ensures { GivesRow slots.old.slots slots.new.slots end result }
{
    match end {
        End::Closed(why) => EndPlace::Closed(why),
        end => EndPlace::Slot(slots.insert_reserved(end)),
    }
}
