//! Reads only the first bytes of a port mapper's answer, however long it is.

ghost use Rattle.std.specs.Prelude.{◌≡◌, ◌+◌, ◌<◌, ◌≤◌, [], length, false};
ghost use Rattle.dist_stream.specs.Stream.{Reads, heard_count};
ghost use Rattle.distping.specs.Fronts.{front_meaning};

use dist_stream::{Heard, Stream, Took};

/// The most bytes that are read of a port mapper's answer: some 2,500 names of usual length. Our own choice.
const MOST_OF_ANSWER: usize = 65_535;

/// A connection to a port mapper whose reader gets at most this many bytes. No contract says which bytes are read and written.
#[derive(Drop)]
pub struct FrontStream<S> {
    /// The connection.
    pub stream: S,
    // How many bytes may still be read.
    left: usize,
    // Whether more bytes arrived.
    is_cut: bool,
}

impl<S: Stream> FrontStream<S> {
    /// The first bytes that arrive on this connection.
    pub fn new(stream: S) -> FrontStream<S>
        ensures stream { result.stream ≡ stream }
        ensures most { result.left ≡ 65535 }
        ensures whole { result.is_cut ≡ false }
    {
        FrontStream {
            stream,
            left: MOST_OF_ANSWER,
            is_cut: false,
        }
    }

    /// Whether more bytes arrived than are read.
    pub fn is_cut(&self) -> bool
        ensures { result ≡ self.now.is_cut }
    {
        self.is_cut
    }

    // Reads bytes that may still be read, into no more room than they need.
    #[tactic(auto, using(crate::proofs::Fronts::reads_front))]
    fn read_front(&mut self, room: &mut [u8]) -> Heard
        requires some { 0 < length room.old }
        requires room { length room.old ≤ self.old.left }
        ensures reads { Reads (front_meaning self.old.is_cut (S.meaning self.old.stream))
            (front_meaning self.new.is_cut (S.meaning self.new.stream)) room.new result }
        ensures counts { heard_count result + self.new.left ≡ self.old.left }
    {
        let heard = self.stream.read(room);
        if let Heard::Bytes(count) = heard {
            self.left -= count;
        }
        heard
    }

    // Reads a byte beyond those that may be read. If one arrives, it is dropped, and counts as the end.
    #[tactic(auto, using(crate::proofs::Fronts::reads_front, crate::proofs::Fronts::reads_behind))]
    fn read_behind(&mut self) -> Heard
        ensures reads { Reads (front_meaning self.old.is_cut (S.meaning self.old.stream))
            (front_meaning self.new.is_cut (S.meaning self.new.stream)) [] result }
        ensures nothing { heard_count result ≡ 0 }
        ensures left { self.new.left ≡ self.old.left }
    {
        let mut room = [0u8; 1];
        match self.stream.read(&mut room) {
            Heard::Bytes(0) => Heard::Bytes(0),
            Heard::Bytes(_) => {
                self.is_cut = true;
                Heard::Bytes(0)
            }
            Heard::Quiet => Heard::Quiet,
            Heard::Failed => Heard::Failed,
        }
    }
}

impl<S: Stream> Stream for FrontStream<S> {
    ghost meaning = { λ s. front_meaning s.is_cut (S.meaning s.stream) };

    #[tactic(auto, using(crate::proofs::Fronts::reads_wider))]
    fn read(&mut self, room: &mut [u8]) -> Heard {
        let most = room.len().min(self.left);
        if most == 0 {
            self.read_behind()
        } else {
            self.read_front(&mut room[..most])
        }
    }

    #[tactic(auto, using(crate::proofs::Fronts::writes_front))]
    fn write(&mut self, bytes: &[u8]) -> Took {
        self.stream.write(bytes)
    }
}
