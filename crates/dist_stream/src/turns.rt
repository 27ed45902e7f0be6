//! Reads and writes that count their turns.
//!
//! A turn is one read or one write, a quiet one among them. Each call lowers the number that is left by the turns that it makes.
//! The bytes, the marks and the count of calls say what was done, also before a fault.

ghost use Rattle.std.specs.Prelude.{◌≡◌, ◌+◌, ◌<◌, ◌≤◌, length, take, OnOk, OnErr, IsOkUnless};
ghost use Rattle.dist_stream.specs.Turns.{Says, Hears, SaysFront, HearsFront, count_of, fault_of};

use crate::stream::{Heard, Stream, Took};
use crate::turn_error::TurnError;

/// A stream, and how many turns are left on it. A turn is one read or one write, a quiet one among them.
///
/// The stream is borrowed from the caller. By its clause `loan` each call promises to hold the same stream afterwards, so
/// the caller knows what became of the stream once this value is gone.
#[derive(Drop)]
pub struct Limited<'a, S> {
    /// The stream.
    pub stream: &'a mut S,
    /// How many turns are left.
    pub left: usize,
}

fn spend(turns: &mut usize) -> Result<(), TurnError>
    ensures ok { OnOk result (turns.old ≡ turns.new + 1) }
    ensures err { OnErr result ((turns.old ≡ 0) × (turns.new ≡ 0)) }
    ensures limit { IsOkUnless result TurnError.Limit }
{
    if *turns == 0 {
        return Err(TurnError::Limit);
    }
    *turns -= 1;
    Ok(())
}

impl<'a, S: Stream> Limited<'a, S> {
    // One write, and how many bytes it took.
    fn write(&mut self, bytes: &[u8]) -> Result<usize, TurnError>
        requires { 0 < length bytes.now }
        ensures fits { count_of result ≤ length bytes.now }
        ensures says { Says (S.meaning self.old.stream.now) (S.meaning self.new.stream.now) self.old.left self.new.left
            (fault_of result) (take (count_of result) bytes.now) }
        ensures turn { OnOk result (self.old.left ≡ self.new.left + 1) }
        ensures one { self.old.left ≤ self.new.left + 1 }
        ensures loan { self.new.stream.ghost_name ≡ self.old.stream.ghost_name }
    {
        spend(&mut self.left)?;
        match self.stream.write(bytes) {
            Took::Bytes(0) | Took::Failed => Err(TurnError::WriteFailed),
            Took::Bytes(count) => Ok(count),
            Took::Quiet => Ok(0),
        }
    }

    /// One read into the front of the buffer. Returns how many bytes it gave: 0 where nothing has come yet.
    ///
    /// Limit comes where no turn is left, and then nothing is read; ReadFailed where the read failed, and Ended where it
    /// gave no bytes. WriteFailed is never returned.
    ///
    /// Source: our own choice.
    pub fn read(&mut self, room: &mut [u8]) -> Result<usize, TurnError>
        requires { 0 < length room.old }
        ensures fits { count_of result ≤ length room.new }
        ensures hears { Hears (S.meaning self.old.stream.now) (S.meaning self.new.stream.now) self.old.left self.new.left
            (fault_of result) (take (count_of result) room.new) }
        ensures turn { OnOk result (self.old.left ≡ self.new.left + 1) }
        ensures one { self.old.left ≤ self.new.left + 1 }
        ensures loan { self.new.stream.ghost_name ≡ self.old.stream.ghost_name }
    {
        spend(&mut self.left)?;
        match self.stream.read(room) {
            Heard::Bytes(0) => Err(TurnError::Ended),
            Heard::Bytes(count) => Ok(count),
            Heard::Quiet => Ok(0),
            Heard::Failed => Err(TurnError::ReadFailed),
        }
    }

    /// Writes all bytes, in as many turns as the stream needs: in one where it takes them whole, and in none where there
    /// are none.
    ///
    /// WriteFailed comes where a write failed or took no bytes, and Limit where the turns ran out; then only a first part of the
    /// bytes was written. ReadFailed and Ended are never returned.
    ///
    /// Source: our own choice.
    pub fn write_all(&mut self, bytes: &[u8]) -> Result<(), TurnError>
        ensures says { SaysFront (S.meaning self.old.stream.now) (S.meaning self.new.stream.now) self.old.left self.new.left (fault_of result) bytes.now }
        ensures loan { self.new.stream.ghost_name ≡ self.old.stream.ghost_name }
    {
        let mut at = 0;
        while at < bytes.len() {
            at += self.write(&bytes[at..])?;
        }
        Ok(())
    }

    /// Fills the buffer, and reads not a byte more.
    ///
    /// Where ReadFailed, Ended or Limit comes, the front of the buffer has what was read before it. WriteFailed is never
    /// returned.
    ///
    /// Source: our own choice.
    pub fn read_exact(&mut self, room: &mut [u8]) -> Result<(), TurnError>
        ensures hears { HearsFront (S.meaning self.old.stream.now) (S.meaning self.new.stream.now) self.old.left self.new.left (fault_of result) room.new }
        ensures loan { self.new.stream.ghost_name ≡ self.old.stream.ghost_name }
    {
        let mut at = 0;
        while at < room.len() {
            at += self.read(&mut room[at..])?;
        }
        Ok(())
    }
}
