//! A stream of frames with lengths of 4 bytes as one of frames with lengths of 2.

ghost use Rattle.std.specs.Prelude.{◌≡◌, ◌<◌, ◌≤◌, [], length, false, true, take};
ghost use Rattle.std.specs.Option.{ForSome};
ghost use Rattle.dist_stream.specs.Stream.{Reads, Writes};
ghost use Rattle.dist_long_frames.specs.Shortened.{is_shared, place_after, room_at};
ghost use Rattle.dist_long_frames.specs.State.{long_state};
ghost use Rattle.dist_long_frames.specs.declared.place.Place.TheVariants.{First};

use crate::place::Place;
use dist_stream::{Heard, Stream, Took};

/// A stream that carries frames with lengths of 4 bytes, read and written as one of frames with lengths of 2.
///
/// Each call makes one call of the stream below. It is quiet if that read or wrote a part of a length that short frames lack. A length
/// above 65,535 is a failed read; what comes behind it is not read as frames, and fails as well. What comes behind the last frame of the
/// handshake, in each direction, is read and written as it is.
#[derive(Drop)]
pub struct LongFrames<S: Stream> {
    stream: S,
    reading: Place,
    writing: Place,
    // What was written led to the place of the next byte.
    ghost led: { ForSome (S.meaning stream).written (λ bytes. writing ≡ place_after First bytes) },
}

impl<S: Stream> LongFrames<S> {
    /// The frames of this stream.
    pub fn new(stream: S) -> LongFrames<S>
        // The stream is new, or does not show what was written.
        requires { ForSome (S.meaning stream).written (λ bytes. bytes ≡ []) }
        ensures stream { result.stream ≡ stream }
        ensures state { ⟦<LongFrames<S> as Stream>⟧.meaning result ≡ long_state First (S.meaning stream) }
    {
        LongFrames {
            stream,
            reading: Place::First,
            writing: Place::First,
        }
    }

    /// Returns the stream below.
    pub fn into_inner(self) -> S
        ensures { result ≡ self.stream }
    {
        let LongFrames { stream, .. } = self;
        stream
    }

    // Reads bytes of one kind: they are shared by short frames, or a part of a length.
    fn read_piece(&mut self, room: &mut [u8]) -> Heard
        requires some { 0 < length room.old }
        requires here { length room.old ≤ room_at self.old.reading }
        ensures reads { Reads (long_state self.old.reading (S.meaning self.old.stream))
            (long_state self.new.reading (S.meaning self.new.stream)) room.new result }
    {
        let heard = self.stream.read(room);
        let Heard::Bytes(count) = heard else {
            return heard;
        };
        if count == 0 {
            return heard;
        }
        let is_shared = self.reading.is_shared();
        self.reading = self.reading.after_all(&room[..count]);
        if is_shared {
            heard
        } else if self.reading.is_too_long() {
            Heard::Failed
        } else {
            Heard::Quiet
        }
    }

    // Writes bytes that are shared by short frames.
    fn write_piece(&mut self, bytes: &[u8]) -> Took
        requires some { 0 < length bytes.now }
        requires here { length bytes.now ≤ room_at self.old.writing }
        requires shared { is_shared self.old.writing ≡ true }
        ensures writes { Writes (long_state self.old.reading (S.meaning self.old.stream))
            (long_state self.new.reading (S.meaning self.new.stream)) bytes.now result }
    {
        let took = self.stream.write(bytes);
        let Took::Bytes(count) = took else {
            return took;
        };
        self.writing = self.writing.after_all(&bytes[..count]);
        took
    }

    // Writes a zero of a length that short frames lack.
    fn write_zero(&mut self, bytes: &[u8]) -> Took
        requires shared { is_shared self.old.writing ≡ false }
        ensures writes { Writes (long_state self.old.reading (S.meaning self.old.stream))
            (long_state self.new.reading (S.meaning self.new.stream)) bytes.now result }
    {
        let zero = [0u8; 1];
        let took = self.stream.write(&zero);
        let Took::Bytes(count) = took else {
            return took;
        };
        self.writing = self.writing.after_all(&zero[..count]);
        if count == 0 { took } else { Took::Quiet }
    }
}

impl<S: Stream> Stream for LongFrames<S> {
    ghost meaning = { λ s. long_state s.reading (S.meaning s.stream) };

    fn read(&mut self, room: &mut [u8]) -> Heard {
        let most = self.reading.room(room.len());
        self.read_piece(&mut room[..most])
    }

    fn write(&mut self, bytes: &[u8]) -> Took {
        if self.writing.is_shared() {
            let most = self.writing.room(bytes.len());
            self.write_piece(&bytes[..most])
        } else {
            self.write_zero(bytes)
        }
    }
}
