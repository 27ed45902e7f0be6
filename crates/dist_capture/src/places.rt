//! What is known of bytes of which some are missing.

ghost use Rattle.std.specs.Prelude.{◌≡◌, ◌≤◌, ◌<◌, ◌+◌, ◌-◌, ◌^◌, ◌++◌, [], length, drop, replicate, Some, None, OnOk, OnErr};
ghost use Rattle.dist_capture.specs.Streams.{laid, first_of};

use std::alloc::{AllocError, Global};
use std::marker::Model;

/// What is known of the bytes of a stream from the awaited one on: a place for each, up to the last one that came.
///
/// BytePlaces that were dropped stay in the vector until the next ones would make it grow. Then those that are left are moved to the front,
/// unless they are more than the dropped ones: so a place is moved at most once on average.
#[derive(Drop)]
pub struct BytePlaces {
    known: Vec<Option<u8>>,
    // Where those that are left begin.
    start: usize,
}

impl Model for BytePlaces {
    ghost use Rattle.std.specs.Prelude.{◌≤◌, ℕ, List, Option, length, drop};

    ghost Value = { List (Option ℕ) };

    ghost view = { λ p. drop p.start p.known.items };

    ghost invariant = { λ p. p.start ≤ length p.known.items };
}

// Of two copies of a byte the first.
fn first_of(known: Option<u8>, byte: u8) -> Option<u8>
    ensures { result ≡ first_of known (Some byte) }
{
    match known {
        Some(first) => Some(first),
        None => Some(byte),
    }
}

// Puts the bytes of a segment into their places, those apart that are known.
fn fill_in(known: &mut Vec<Option<u8>>, place: usize, bytes: &[u8])
    requires { place + length bytes.now ≤ length known.old.items }
    ensures { known.new.items ≡ laid place bytes.now known.old.items }
{
    for i in 0..bytes.len() {
        known[place + i] = first_of(known[place + i], bytes[i]);
    }
}

impl BytePlaces {
    /// No place. It takes no memory.
    pub fn new(alloc: Global) -> BytePlaces
        ensures { result ≡ [] }
    {
        BytePlaces {
            known: Vec::new(alloc),
            start: 0,
        }
    }

    /// What is known, place by place.
    pub fn as_slice(&self) -> &[Option<u8>]
        ensures { result.now ≡ self.now }
    {
        &self.known[self.start..]
    }

    /// How many places there are.
    pub fn len(&self) -> usize
        ensures { result ≡ length self.now }
    {
        self.known.len() - self.start
    }

    // Moves the places to the front of the vector, unless more are left than were dropped.
    fn make_room(&mut self)
        ensures { self.new ≡ self.old }
    {
        let left = self.len();
        if left <= self.start {
            self.known.copy_within(self.start.., 0);
            self.known.truncate(left);
            self.start = 0;
        }
    }

    // Has at least so many places; the new ones are of bytes that are not known.
    fn reach(&mut self, end: usize) -> Result<(), AllocError>
        requires { end < 2 ^ 63 + 2 ^ 32 }
        ensures ok { OnOk result (self.new ≡ self.old ++ replicate (end - length self.old) None) }
        ensures err { OnErr result (self.new ≡ self.old) }
    {
        if end <= self.len() {
            return Ok(());
        }
        if self.known.capacity() - self.known.len() < end - self.len() {
            self.make_room();
        }
        self.known.resize(self.start + end, None)
    }

    /// Puts the bytes of a segment into their places; a byte that is known stays. An `Err` changes nothing.
    pub fn lay(&mut self, place: usize, bytes: &[u8]) -> Result<(), AllocError>
        requires { place < 2 ^ 32 }
        ensures ok { OnOk result (self.new ≡ laid place bytes.now self.old) }
        ensures err { OnErr result (self.new ≡ self.old) }
    {
        self.reach(place + bytes.len())?;
        fill_in(&mut self.known, self.start + place, bytes);
        Ok(())
    }

    /// Drops the first `count` places, or all.
    pub fn drop_front(&mut self, count: usize)
        ensures { self.new ≡ drop count self.old }
    {
        self.start += count.min(self.len());
    }
}
