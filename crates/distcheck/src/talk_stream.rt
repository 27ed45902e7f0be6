//! What a talk reads from and writes on: a connection as it is, or one in a tunnel of TLS.

ghost use Rattle.distcheck.specs.Seeing.{carried};

use dist_long_frames::LongFrames;
use dist_stream::{Heard, SocketStream, Stream, Took};

/// What a talk reads from and writes on.
#[derive(Drop)]
pub enum TalkStream<P, T> {
    /// A connection as it is.
    Plain(P),
    /// One in a tunnel of TLS, in which the frames of a handshake have lengths of 4 bytes.
    Tunnelled(T),
}

/// One over a connection of the system.
pub type SocketTalk = TalkStream<SocketStream, LongFrames<SocketStream>>;

/// What this connection carries.
pub fn stream_over(stream: SocketStream, is_tunnelled: bool) -> SocketTalk {
    if is_tunnelled {
        TalkStream::Tunnelled(LongFrames::new(stream))
    } else {
        TalkStream::Plain(stream)
    }
}

impl<P: Stream, T: Stream> Stream for TalkStream<P, T> {
    ghost meaning = { carried P.meaning T.meaning };

    fn read(&mut self, room: &mut [u8]) -> Heard {
        match self {
            TalkStream::Plain(stream) => stream.read(room),
            TalkStream::Tunnelled(frames) => frames.read(room),
        }
    }

    fn write(&mut self, bytes: &[u8]) -> Took {
        match self {
            TalkStream::Plain(stream) => stream.write(bytes),
            TalkStream::Tunnelled(frames) => frames.write(bytes),
        }
    }
}
