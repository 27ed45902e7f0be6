//! What one side of a connection sends: what its segments came to, and the bytes with which it began.

ghost use Rattle.std.specs.Prelude.{◌≡◌, OnOk, length, nat_le};
ghost use Rattle.dist_conversation.specs.Flows.{awaited_of, begun_by, bytes_of, end_before, first_read, gathered, gone, has_no_more, is_answer, is_behind};
ghost use Rattle.dist_conversation.specs.Flows.{is_unread, lacks_by, may_end, new_flow, with_answer, with_bytes, with_end, with_segment};

use crate::numbers::{end_number, first_of, is_ahead, is_beyond, is_known_ahead, latest_number};
use dist_capture::{Segment, SegmentStream};
use std::alloc::{AllocError, Global};

// The most bytes of a side that are kept. Our own choice: a handshake has some hundred, and so has what a port mapper answers to a lookup.
const BEGINNING: usize = 8_192;

// How far a byte may be behind a gap. Our own choice.
const GAP: usize = 4_096;

/// How a side ended the connection, or its direction of it.
#[derive(Clone, Copy)]
pub struct FlowEnd {
    /// When, in nanoseconds since 1970.
    pub at: u64,
    /// Whether it reset the connection.
    pub is_reset: bool,
    /// The number behind its last byte.
    pub number: u32,
    /// Up to which number it had received what the other side sent, if it ever said so.
    pub received: Option<u32>,
    /// Whether the other side had ended before, in the order of the capture.
    pub is_second: bool,
}

impl FlowEnd {
    // Whether it acknowledges the other side's.
    fn is_answer(self, other: FlowEnd) -> bool
        ensures { result ≡ is_answer self other }
    {
        self.received == Some(other.number.wrapping_add(1))
    }

    /// Whether it came behind that of the other side: it acknowledges it, in whatever order the capture has the two; or it was captured
    /// behind it, and the other one does not acknowledge it.
    pub fn is_behind(self, other: FlowEnd) -> bool
        ensures { result ≡ is_behind self other }
    {
        self.is_answer(other) || self.is_second && !other.is_answer(self)
    }
}

/// What one side sends.
#[derive(Drop)]
pub struct Flow {
    // The bytes with which it began, as long as they are read; before its first segment nothing.
    stream: Option<SegmentStream>,
    is_read: bool,
    // The number behind the last byte that a segment of it shows, and up to which the other side received.
    sent: Option<u32>,
    received: Option<u32>,
    /// The most bytes that it was ready to take.
    pub window: u16,
    /// Whether any byte of it was captured.
    pub has_spoken: bool,
    /// When its latest segment was captured that is no reset.
    pub heard: u64,
    /// When its latest bytes were captured; before them, when its connection's first segment was.
    pub latest: u64,
    /// How many packets it sent again, since the other side acknowledged something new.
    pub again: u32,
    /// How it ended, perhaps behind bytes that are not in the capture.
    pub end: Option<FlowEnd>,
}

impl Flow {
    /// Nothing was sent yet, and the connection's first segment was captured at this time.
    pub fn new(at: u64) -> Flow
        ensures { result ≡ new_flow at }
    {
        Flow {
            stream: None,
            is_read: true,
            sent: None,
            received: None,
            window: 0,
            has_spoken: false,
            heard: at,
            latest: at,
            again: 0,
            end: None,
        }
    }

    /// Whether no segment of it was captured.
    pub fn is_unseen(&self) -> bool {
        self.sent.is_none()
    }

    /// The bytes with which it began, up to the first that is not there.
    pub fn bytes(&self) -> &[u8]
        ensures { result.now ≡ bytes_of self.now }
    {
        match &self.stream {
            Some(stream) => stream.ready(),
            None => b"",
        }
    }

    /// Whether no more of its bytes are kept.
    pub fn is_full(&self) -> bool
        ensures { result ≡ nat_le 8192 (length (bytes_of self.now)) }
    {
        self.bytes().len() >= BEGINNING
    }

    /// Keeps and reads its bytes no more.
    pub fn stop_reading(&mut self)
        ensures { self.new ≡ gone self.old }
    {
        self.stream = None;
        self.is_read = false;
    }

    /// The number of the next byte that is missing or to come; once it is not read any more, the one behind all that were sent.
    pub fn next(&self) -> Option<u32>
        ensures { result ≡ awaited_of self.now }
    {
        match &self.stream {
            Some(stream) => Some(stream.next_number()),
            None => self.sent,
        }
    }

    // Begins to read its bytes at this segment, unless it did before: at the byte that the other side awaited, if it begins close behind that.
    fn begin(&mut self, alloc: Global, segment: &Segment)
        ensures { self.new ≡ record self.old { stream = begun_by segment.now self.old } }
    {
        if self.is_read && self.stream.is_none() {
            let first = first_read(self.received, segment);
            self.stream = Some(SegmentStream::new(alloc, first, GAP));
        }
    }

    // Notes when bytes came, and whether some of them were sent before, and not received.
    fn note_bytes(&mut self, segment: &Segment)
        ensures { self.new ≡ with_bytes segment.now self.old }
    {
        if segment.payload.is_empty() && segment.missing == 0 {
            return;
        }
        self.has_spoken = true;
        self.latest = segment.time;
        let is_again = is_known_ahead(self.sent, Some(first_of(segment)))
            && is_beyond(end_number(segment), self.received);
        self.again = self.again.saturating_add(u32::from(is_again));
    }

    /// Takes a segment of this side that is no reset; its bytes are kept if there is `room`.
    pub fn take(&mut self, alloc: Global, segment: &Segment, room: bool) -> Result<(), AllocError>
        ensures { OnOk result (self.new ≡ with_segment room segment.now self.old) }
    {
        self.heard = segment.time;
        self.window = self.window.max(segment.window);
        self.note_bytes(segment);
        self.begin(alloc, segment);
        if room && let Some(stream) = &mut self.stream {
            keep(stream, segment)?;
        }
        // (A close without bytes may have any number.)
        let has_number = !segment.is_fin || first_of(segment) != end_number(segment);
        if has_number || self.sent.is_none() {
            self.sent = latest_number(end_number(segment), self.sent);
        }
        Ok(())
    }

    /// Notes what a segment of the other side acknowledges.
    pub fn take_answer(&mut self, segment: &Segment)
        ensures { self.new ≡ with_answer segment.now.acknowledges self.old }
    {
        if let Some(number) = segment.acknowledges
            && is_beyond(number, self.received)
        {
            self.received = Some(number);
            self.again = 0;
        }
    }

    /// Whether this segment of this side, which was taken, can end the connection: the number of a reset is one that the other side awaits
    /// (RFC 9293, 3.10.7.4), which is ready to take this much; that of a close is none that came before.
    pub fn may_end(&self, segment: &Segment, window: u16) -> bool
        ensures { result ≡ may_end segment.now window self.now (awaited_of self.now) }
    {
        let number = end_number(segment);
        match self.next() {
            Some(next) if segment.is_reset => {
                number.wrapping_sub(next) <= u32::from(window) || self.received == Some(number)
            }
            Some(next) => !is_ahead(next, number),
            None => true,
        }
    }

    /// Notes that this side ended the connection by this segment. An end that is behind a gap gives way to one that is not.
    pub fn note_end(&mut self, segment: &Segment, other: &Flow)
        ensures { self.new ≡ with_end segment.now other.now self.old }
    {
        if self.known_end().is_none() {
            self.end = Some(FlowEnd {
                at: segment.time,
                is_reset: segment.is_reset,
                number: end_number(segment),
                received: other.received,
                is_second: other.end.is_some(),
            });
        }
    }

    /// How it ended, if no byte before that is missing.
    pub fn known_end(&self) -> Option<FlowEnd>
        ensures { result ≡ end_before self.now.end (awaited_of self.now) }
    {
        match self.end {
            Some(end) if is_known_ahead(Some(end.number), self.next()) => None,
            end => end,
        }
    }

    /// Whether bytes of this segment show that what is known of this side is not all: they stand behind a gap, or behind its end.
    pub fn is_overrun_by(&self, segment: &Segment) -> bool {
        let (first, last) = (first_of(segment), end_number(segment));
        let is_past_gap = is_known_ahead(Some(first), self.next());
        let is_past_end = self.end.is_some_and(|end| is_ahead(last, end.number));
        !segment.is_reset && first != last && (is_past_gap || is_past_end)
    }

    /// Whether the other side, which ended so, had not received all bytes of this one that are in the capture.
    pub fn is_unread_by(&self, end: FlowEnd) -> bool
        ensures { result ≡ is_unread self.now end }
    {
        is_known_ahead(self.next(), end.received)
    }

    /// Whether the capture lacks bytes of this side: the other side received more, or this one sent more. `reader` is how that other side
    /// ended: if it had not received them either, they are not missing.
    pub fn lacks_bytes(&self, reader: Option<FlowEnd>) -> bool
        ensures { result ≡ lacks_by self.now (awaited_of self.now) reader }
    {
        let Some(next) = self.next() else {
            return self.received.is_some();
        };
        let is_closed = matches!(self.known_end(), Some(end) if !end.is_reset);
        let last = Some(next.wrapping_add(u32::from(is_closed)));
        if is_known_ahead(self.received, last) {
            return true;
        }
        let is_past = self
            .end
            .is_some_and(|end| is_known_ahead(Some(end.number), last));
        (is_past || is_known_ahead(self.sent, last)) && !has_no_more(next, reader)
    }
}

// Keeps the bytes of a segment, as far as there is room for them.
fn keep(stream: &mut SegmentStream, segment: &Segment) -> Result<(), AllocError>
    ensures { OnOk result (stream.new ≡ gathered segment.now stream.old) }
{
    let room = BEGINNING.saturating_sub(stream.ready().len());
    let (bytes, _) = segment.payload.split_at(segment.payload.len().min(room));
    stream.take(first_of(segment), bytes)?;
    Ok(())
}

// The number of the first byte that is to be read: the one that the other side awaited before, if a segment that is no SYN begins close
// behind it.
fn first_read(received: Option<u32>, segment: &Segment) -> u32
    ensures { result ≡ first_read received segment.now }
{
    let first = first_of(segment);
    match received {
        Some(number) if !segment.is_syn && first.wrapping_sub(number) < 0x1_0000 => number,
        _ => first,
    }
}

// Whether a side that ended so had received no more than what is there up to this number.
fn has_no_more(awaited: u32, reader: Option<FlowEnd>) -> bool
    ensures { result ≡ has_no_more awaited reader }
{
    match reader {
        Some(
            FlowEnd {
                received: Some(received),
                ..
            },
        ) => !is_ahead(received, awaited),
        _ => false,
    }
}
