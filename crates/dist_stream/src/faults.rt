//! A stream over memory, for tests.

ghost use Rattle.std.specs.Prelude.{◌≡◌, ◌<◌, ◌≤◌, ◌++◌, [], length, take, Some, IsTrue, false};
ghost use Rattle.dist_stream.specs.Stream.{heard_count, is_end, is_failed_read, took_count, new_stream};

use crate::marks::{is_end, is_failed_read, is_failed_write};
use crate::stream::{Heard, Stream, Took};
use std::alloc::Global;

/// A stream over memory that gives and takes pieces of given sizes, and can fail. It is made for tests.
///
/// The sizes bound the bytes of each read or write in turn. Where there are fewer sizes than calls, they start again from
/// the first; where there are none, nothing is bounded. A size of 0 is a quiet turn.
#[derive(Drop)]
pub struct FaultStream {
    /// The most bytes that each read gives, in turn.
    pub read_sizes: Vec<usize>,
    /// The most bytes that each write takes, in turn.
    pub write_sizes: Vec<usize>,
    /// Which read fails, counted from 1. With 0 none does.
    pub fail_read: u64,
    /// Which write fails, counted from 1. With 0 none does.
    pub fail_write: u64,
    input: Vec<u8>,
    output: Vec<u8>,
    reads: u64,
    writes: u64,
    calls: u64,
    ended: bool,
    read_failed: bool,
    write_failed: bool,
}

// The bound of this call; calls are counted from 1.
fn size_at(sizes: &[usize], call: u64) -> usize {
    if sizes.is_empty() {
        return usize::MAX;
    }
    let turn = call.saturating_sub(1) as usize % sizes.len();
    sizes[turn]
}

impl FaultStream {
    /// A stream that gives these bytes in one piece, takes all bytes, and doesn't fail. It takes no memory.
    pub fn new(alloc: Global, input: Vec<u8>) -> FaultStream
        ensures { ⟦<FaultStream as Stream>⟧.meaning result ≡ new_stream (Some input.items) (Some []) }
    {
        FaultStream {
            read_sizes: Vec::new(alloc),
            write_sizes: Vec::new(alloc),
            fail_read: 0,
            fail_write: 0,
            input,
            output: Vec::new(alloc),
            reads: 0,
            writes: 0,
            calls: 0,
            ended: false,
            read_failed: false,
            write_failed: false,
        }
    }

    /// All bytes that were written.
    pub fn output(&self) -> &[u8]
        ensures { (⟦<FaultStream as Stream>⟧.meaning self.now).written ≡ Some result.now }
    {
        &self.output
    }

    /// The bytes that weren't read yet.
    pub fn unread(&self) -> &[u8]
        ensures { (⟦<FaultStream as Stream>⟧.meaning self.now).unread ≡ Some result.now }
    {
        &self.input
    }

    /// How many reads and writes were made.
    pub fn calls(&self) -> u64
        ensures { (⟦<FaultStream as Stream>⟧.meaning self.now).calls ≡ result }
    {
        self.calls
    }
}

// Moves some of the input into the buffer. With a size of 0 it is quiet.
fn take_input(input: &mut Vec<u8>, room: &mut [u8], most: usize) -> Heard
    requires { 0 < length room.old }
    ensures fits { heard_count result ≤ length room.new }
    ensures bytes { input.old.items ≡ take (heard_count result) room.new ++ input.new.items }
    ensures all { IsTrue (is_end result) → input.new.items ≡ [] }
    ensures fine { is_failed_read result ≡ false }
{
    if most == 0 {
        return Heard::Quiet;
    }
    let count = most.min(room.len()).min(input.len());
    room[..count].copy_from_slice(&input[..count]);
    let _ = input.drain(..count);
    Heard::Bytes(count)
}

// Adds some bytes to the output. With a size of 0 it is quiet, and it fails where memory runs out.
fn push_output(output: &mut Vec<u8>, bytes: &[u8], most: usize) -> Took
    ensures fits { took_count result ≤ length bytes.now }
    ensures bytes { output.new.items ≡ output.old.items ++ take (took_count result) bytes.now }
{
    if most == 0 {
        return Took::Quiet;
    }
    let count = most.min(bytes.len());
    match output.extend_from_slice(&bytes[..count]) {
        Ok(_) => Took::Bytes(count),
        Err(_) => Took::Failed,
    }
}

impl Stream for FaultStream {
    ghost meaning = { λ s. record {
      unread = Some s.input.items;
      written = Some s.output.items;
      calls = s.calls;
      ended = s.ended;
      read_failed = s.read_failed;
      write_failed = s.write_failed;
    } };

    fn read(&mut self, room: &mut [u8]) -> Heard {
        self.calls = self.calls.saturating_add(1);
        self.reads = self.reads.saturating_add(1);
        let heard = if self.reads == self.fail_read {
            Heard::Failed
        } else {
            let most = size_at(&self.read_sizes, self.reads);
            take_input(&mut self.input, room, most)
        };
        self.ended = is_end(heard) || self.ended;
        self.read_failed = is_failed_read(heard) || self.read_failed;
        heard
    }

    fn write(&mut self, bytes: &[u8]) -> Took {
        self.calls = self.calls.saturating_add(1);
        self.writes = self.writes.saturating_add(1);
        let took = if self.writes == self.fail_write {
            Took::Failed
        } else {
            let most = size_at(&self.write_sizes, self.writes);
            push_output(&mut self.output, bytes, most)
        };
        self.write_failed = is_failed_write(took) || self.write_failed;
        took
    }
}
