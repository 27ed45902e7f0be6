//! Bytes that wait to be read.

ghost use Rattle.std.specs.Prelude.{◌≡◌, ◌++◌, ◌-◌, [], length, take, drop, OnOk, OnErr};

use std::alloc::{AllocError, Global};
use std::marker::Model;

/// Bytes that wait to be read: more are added at the end, and read ones are dropped at the front. Contracts see the waiting ones.
///
/// Dropped bytes stay in the vector until the next ones would make it grow. Then those that wait are moved to the front,
/// unless they are more than the dropped ones: so a byte is moved at most once on average.
#[derive(Drop)]
pub struct ByteQueue {
    bytes: Vec<u8>,
    // Where the waiting bytes begin.
    start: usize,
}

impl Model for ByteQueue {
    ghost use Rattle.std.specs.Prelude.{◌≤◌, ℕ, List, length, drop};

    ghost Value = { List ℕ };

    ghost view = { λ q. drop q.start q.bytes.items };

    ghost invariant = { λ q. q.start ≤ length q.bytes.items };
}

impl ByteQueue {
    /// An empty queue. It takes no memory.
    pub fn new(alloc: Global) -> ByteQueue
        ensures { result ≡ [] }
    {
        ByteQueue {
            bytes: Vec::new(alloc),
            start: 0,
        }
    }

    /// A queue of these bytes. It takes no memory.
    pub fn from_vec(bytes: Vec<u8>) -> ByteQueue
        ensures { result ≡ bytes.items }
    {
        ByteQueue { bytes, start: 0 }
    }

    /// All bytes that wait.
    pub fn as_slice(&self) -> &[u8]
        ensures { result.now ≡ self.now }
    {
        &self.bytes[self.start..]
    }

    /// How many bytes wait.
    pub fn len(&self) -> usize
        ensures { result ≡ length self.now }
    {
        self.bytes.len() - self.start
    }

    // Moves the bytes to the front of the vector, unless more wait than were dropped. It is seldom needed, and apart so that `extend`
    // is short enough to become part of its callers.
    #[cold]
    #[inline(never)]
    fn make_room(&mut self)
        ensures { self.new ≡ self.old }
    {
        let waiting = self.len();
        if waiting <= self.start {
            self.bytes.copy_within(self.start.., 0);
            self.bytes.truncate(waiting);
            self.start = 0;
        }
    }

    /// Adds bytes at the end. An `Err` changes nothing.
    pub fn extend(&mut self, more: &[u8]) -> Result<(), AllocError>
        ensures ok { OnOk result (self.new ≡ self.old ++ more.now) }
        ensures err { OnErr result (self.new ≡ self.old) }
    {
        if self.bytes.capacity() - self.bytes.len() < more.len() {
            self.make_room();
        }
        self.bytes.extend_from_slice(more)
    }

    /// Drops the first `count` bytes, or all.
    pub fn drop_front(&mut self, count: usize)
        ensures { self.new ≡ drop count self.old }
    {
        self.start += count.min(self.len());
    }

    /// Drops all bytes; the next ones have the room of the whole vector.
    pub(crate) fn clear(&mut self)
        ensures { self.new ≡ [] }
    {
        self.bytes.clear();
        self.start = 0;
    }

    /// Drops the last `count` bytes, or all.
    pub fn drop_back(&mut self, count: usize)
        ensures { self.new ≡ take (length self.old - count) self.old }
    {
        let left = self.bytes.len() - count.min(self.len());
        self.bytes.truncate(left);
    }

    /// Returns the bytes that wait. It takes no memory.
    pub fn into_vec(self) -> Vec<u8>
        ensures { result.items ≡ self }
    {
        let ByteQueue { mut bytes, start } = self;
        let waiting = bytes.len() - start;
        bytes.copy_within(start.., 0);
        bytes.truncate(waiting);
        bytes
    }
}
