//! What is sent on a stream, and what it has not taken yet.

ghost use Rattle.std.specs.{Prelude.◌≡◌, Prelude.◌≤◌, Prelude.◌||◌, Prelude.length, Prelude.take, Io.KnownBytes.append_known};

use dist_names::ByteString;
use dist_stream::{Stream, Took};

/// A text that is to be sent to a client that has left, before its stream is closed, and how much of it was sent.
#[derive(Drop)]
pub struct Owed<S> {
    pub(crate) stream: S,
    pub(crate) text: ByteString,
    pub(crate) done: usize,
    pub(crate) since: u64,
    ghost within: { done ≤ length text },
}

/// What a try to send something came to: one write, or none where there is nothing to send.
#[derive(Clone, Copy)]
pub struct Said {
    /// How many bytes the stream took, from the front.
    pub count: usize,
    /// Whether the write failed.
    pub failed: bool,
}

/// Sends as much of a text as the stream takes at once.
pub fn say<S: Stream>(stream: &mut S, text: &[u8]) -> Said
    ensures fits { result.count ≤ length text.now }
    ensures written { (S.meaning stream.new).written ≡ append_known (S.meaning stream.old).written (take result.count text.now) }
    ensures unread { (S.meaning stream.new).unread ≡ (S.meaning stream.old).unread }
    ensures failed { (S.meaning stream.new).write_failed ≡ (result.failed || (S.meaning stream.old).write_failed) }
{
    if text.is_empty() {
        return Said {
            count: 0,
            failed: false,
        };
    }
    let (count, failed) = match stream.write(text) {
        Took::Bytes(count) => (count, count == 0),
        Took::Quiet => (0, false),
        Took::Failed => (0, true),
    };
    Said { count, failed }
}

impl<S: Stream> Owed<S> {
    ghost use Rattle.std.specs.Prelude.{ℕ, ◌++◌, ◌-◌, [], List, Option, drop, nat_le};
    ghost use Rattle.dist_epmd_server.specs.Owed.{stream_of, owed_text, since_of, said_of, left_of, sent_in_all, IsSent};

    /// A text of which nothing was sent yet, to a client that left at this time, in seconds.
    pub fn new(stream: S, text: ByteString, since: u64) -> Owed<S>
        ensures stream { stream_of result ≡ stream }
        ensures text { owed_text result ≡ text }
        ensures since { since_of result ≡ since }
        ensures said { said_of result ≡ [] }
        ensures sent { IsSent S.meaning (S.meaning stream).written result }
        ensures in_all { sent_in_all S.meaning result ≡ append_known (S.meaning stream).written text }
    {
        Owed {
            stream,
            text,
            done: 0,
            since,
        }
    }

    /// Nothing is lost between what was sent and what is left, and nothing stands in both: the law of every value of this type.
    pub fn nothing_is_lost(&self)
        ensures { said_of self.now ++ left_of self.now ≡ owed_text self.now }
    {}

    /// Whether all is sent.
    pub fn is_said(&self) -> bool
        ensures { result ≡ nat_le (length (left_of self.now)) 0 }
    {
        self.done >= self.text.len()
    }

    /// Whether its client left this many seconds ago or earlier.
    pub fn is_late(&self, now: u64, seconds: u64) -> bool
        ensures { result ≡ nat_le seconds (now - since_of self.now) }
    {
        now.saturating_sub(self.since) >= seconds
    }

    /// Goes on to send what is left, from its first byte. What the stream takes of it is sent, and no longer left.
    pub fn go_on(&mut self) -> Said
        ensures text { owed_text self.new ≡ owed_text self.old }
        ensures since { since_of self.new ≡ since_of self.old }
        ensures said { said_of self.new ≡ said_of self.old ++ take result.count (left_of self.old) }
        ensures left { left_of self.new ≡ drop result.count (left_of self.old) }
        ensures written { (S.meaning (stream_of self.new)).written
            ≡ append_known (S.meaning (stream_of self.old)).written (take result.count (left_of self.old)) }
        ensures failed { (S.meaning (stream_of self.new)).write_failed ≡ (result.failed || (S.meaning (stream_of self.old)).write_failed) }

        // What was sent on its stream and then what is left stays the same: no byte is lost, sent twice or exchanged.
        ensures in_all { sent_in_all S.meaning self.new ≡ sent_in_all S.meaning self.old }

        // In how many pieces it is sent does not matter.
        ensures sent { (before : Option (List ℕ)) → IsSent S.meaning before self.old → IsSent S.meaning before self.new }
    {
        let said = say(&mut self.stream, &self.text.as_slice()[self.done..]);
        self.done += said.count;
        said
    }
}
