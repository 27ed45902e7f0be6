//! A connection that is asked the less often the longer it is quiet.

ghost use Rattle.std.specs.Prelude.{◌≡◌, ◌<◌, ◌+◌, ◌-◌, length, false, true};
ghost use Rattle.dist_stream.specs.Stream.{Reads, one_more};
ghost use Rattle.dist_run_hosts.specs.Waits.{turns_of_wait};

use crate::sockets::socket_of;
use crate::waiting::{turns_of_wait, wait_for_input};
use dist_stream::{Heard, SocketStream, Stream, Took};
use std::time::Clock;

/// A connection whose reads wait for as long as it has been quiet: a turn at first, and a second at most.
///
/// It counts the turns of the call, each that passes in a wait too. Once none is left, its reads wait for nothing. So a call over this
/// stream takes as much time as over the connection itself, and until then it asks once for each wait.
#[derive(Drop)]
pub struct PatientStream<'a, C> {
    stream: SocketStream,
    clock: &'a C,
    // How many turns of the call are left.
    left: usize,
    // For how many turns it has been quiet.
    quiet: usize,
    calls: u64,
}

impl<'a, C: Clock> PatientStream<'a, C> {
    /// The stream over this connection, for a call of so many turns.
    pub fn new(clock: &'a C, stream: SocketStream, turns: usize) -> PatientStream<'a, C>
        ensures stream { result.stream ≡ stream }
        ensures turns { result.left ≡ turns }
    {
        PatientStream {
            stream,
            clock,
            left: turns,
            quiet: 0,
            calls: 0,
        }
    }

    // Begins a read or a write.
    fn begin(&mut self)
        ensures stream { self.new.stream ≡ self.old.stream }
        ensures calls { self.new.calls ≡ one_more self.old.calls }
        ensures left { self.new.left ≡ self.old.left }
    {
        self.calls = self.calls.saturating_add(1);
    }

    // Counts turns that pass.
    fn spend(&mut self, turns: usize)
        ensures stream { self.new.stream ≡ self.old.stream }
        ensures calls { self.new.calls ≡ self.old.calls }
        ensures left { self.new.left ≡ self.old.left - turns }
    {
        self.left = self.left.saturating_sub(turns);
    }

    // Waits for bytes where it has been quiet, as long as it has been so. Whether all of the wait was quiet, so also where no turn is left.
    fn wait(&mut self) -> bool
        ensures stream { self.new.stream ≡ self.old.stream }
        ensures calls { self.new.calls ≡ self.old.calls }
        ensures quiet { result ≡ true → self.new.left + turns_of_wait self.old.quiet self.old.left ≡ self.old.left }
        ensures cut { result ≡ false → self.old.left < self.new.left + turns_of_wait self.old.quiet self.old.left }
    {
        let turns = turns_of_wait(self.quiet, self.left);
        // A read waits for one turn by itself.
        if turns <= 1 {
            return turns == 0;
        }
        let passed = wait_for_input(self.clock, socket_of(&self.stream), turns);
        self.quiet = self.quiet.saturating_add(passed);
        self.spend(passed);
        passed == turns
    }

    // Reads what has come, within a turn.
    fn hear(&mut self, room: &mut [u8]) -> Heard
        requires { 0 < length room.old }
        ensures reads { Reads (⟦<SocketStream as Stream>⟧.meaning self.old.stream) (⟦<SocketStream as Stream>⟧.meaning self.new.stream) room.new result }
        ensures calls { self.new.calls ≡ self.old.calls }
        ensures left { self.new.left ≡ self.old.left - 1 }
    {
        self.spend(1);
        let heard = self.stream.read(room);
        self.quiet = match heard {
            Heard::Quiet => self.quiet.saturating_add(1),
            _ => 0,
        };
        heard
    }

    /// The connection, given back.
    pub fn into_inner(self) -> SocketStream
        ensures { result ≡ self.entry.stream }
    {
        self.stream
    }
}

impl<'a, C: Clock> Stream for PatientStream<'a, C> {
    // that of the connection, with the reads and writes that were asked for here as its calls
    ghost meaning = { λ s. let inner = ⟦<SocketStream as Stream>⟧.meaning s.stream in record {
      unread = inner.unread;
      written = inner.written;
      calls = s.calls;
      ended = inner.ended;
      read_failed = inner.read_failed;
      write_failed = inner.write_failed;
    } };

    fn read(&mut self, room: &mut [u8]) -> Heard {
        self.begin();
        if self.wait() {
            return Heard::Quiet;
        }
        self.hear(room)
    }

    fn write(&mut self, bytes: &[u8]) -> Took {
        self.begin();
        self.spend(1);
        self.stream.write(bytes)
    }
}
