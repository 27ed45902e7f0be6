//! A connection that takes nothing more once the other side has ended it.

use crate::links::attempt::ProbeStream;
use crate::links::looking::has_ended;
use dist_messages::Side;
use dist_stream::{Heard, Stream, Took};
use std::time::Duration;

/// How many milliseconds an end is looked for before an answer is written. What a node sends in one go comes within less. Our own choice.
const GLANCE: i32 = 1;

/// A connection to a node. A dialler that has read something looks, before it writes, whether the node has ended the connection: then the
/// write fails, and the node is not sent what it cannot have asked for.
#[derive(Drop)]
pub struct OpenStream<'a> {
    stream: ProbeStream<'a>,
    side: Side,
    // Whether something was read.
    has_heard: bool,
    // What was left of the time after the last write.
    left: Duration,
}

impl<'a> OpenStream<'a> {
    /// This connection, of which the own side is this one.
    pub fn new(stream: ProbeStream<'a>, side: Side) -> OpenStream<'a> {
        let left = stream.time_left();
        OpenStream {
            stream,
            side,
            has_heard: false,
            left,
        }
    }

    /// How much time has passed since the last write.
    pub fn since_write(&self) -> Duration {
        self.left.saturating_sub(self.stream.time_left())
    }

    /// The connection itself.
    pub fn into_inner(self) -> ProbeStream<'a> {
        self.stream
    }

    // Whether the other side has ended the connection before an answer to it.
    fn is_over(&self) -> bool {
        match self.side {
            Side::Dialler => {
                self.has_heard && has_ended(self.stream.get_ref().get_ref(), GLANCE)
            }
            Side::Acceptor => false,
        }
    }
}

impl<'a> Stream for OpenStream<'a> {
    ghost meaning = { λ s. ⟦<ProbeStream<'a> as Stream>⟧.meaning s.stream };

    fn read(&mut self, room: &mut [u8]) -> Heard {
        self.has_heard = true;
        self.stream.read(room)
    }

    fn write(&mut self, bytes: &[u8]) -> Took {
        if self.is_over() {
            // A socket that is shut takes no bytes.
            let _ = self.stream.get_ref().shut();
        }
        let took = self.stream.write(bytes);
        self.left = self.stream.time_left();
        took
    }
}
