//! What a stream is.

/// What a read gave.
#[derive(Clone, Copy, Debug, PartialEq, Eq)]
pub enum Heard {
    /// This many bytes, at the front of the buffer. 0 means that the stream has ended.
    Bytes(usize),
    /// Nothing yet.
    Quiet,
    /// The read failed.
    Failed,
}

/// What a write took.
#[derive(Clone, Copy, Debug, PartialEq, Eq)]
pub enum Took {
    /// This many bytes, from the front. 0 is a failure.
    Bytes(usize),
    /// Nothing yet.
    Quiet,
    /// The write failed.
    Failed,
}

/// Bytes that come and go: a connection, as far as a caller sees it. Both calls always return.
///
/// Its meaning is the bytes that are unread and those that were written, each where the stream shows them, a count of
/// calls, and three marks that stay once they are set: the stream ended, a read failed, a write failed.
pub trait Stream {
    ghost use Rattle.std.specs.Prelude.{◌<◌, length};
    ghost use Rattle.dist_stream.specs.Stream.{StreamState, Reads, Writes};

    ghost meaning: { Self → StreamState };

    /// Reads what has come, at most as much as fits in the buffer.
    fn read(&mut self, room: &mut [u8]) -> Heard
        requires { 0 < length room.old }
        ensures { Reads (meaning self.old) (meaning self.new) room.new result };

    /// Writes some bytes from the front.
    fn write(&mut self, bytes: &[u8]) -> Took
        requires { 0 < length bytes.now }
        ensures { Writes (meaning self.old) (meaning self.new) bytes.now result };
}
