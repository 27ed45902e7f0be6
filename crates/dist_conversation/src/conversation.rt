//! A conversation: what the segments between two ports came to, from the one that begins it on.

ghost use Rattle.std.specs.Prelude.{◌≡◌, ◌↔◌, IsTrue, OnOk};
ghost use Rattle.dist_conversation.specs.Conversations.{IsBetween, IsFrom, Takes, any_end, begun, can_end, ended_or, first_end, flow_of};
ghost use Rattle.dist_conversation.specs.Conversations.{is_from_dialler, is_overdue_at, lacks_bytes, left, recognized, swapped, unreached_of};
ghost use Rattle.dist_conversation.specs.{Conversations.with_ending, Conversations.with_pieces, Conversations.with_sign, Flows.with_answer, Flows.with_end};

use crate::flow::{Flow, FlowEnd};
use crate::looks::{Shown, look_at, shown_by};
use crate::pieces::{Arrival, Pieces};
use dist_capture::{Endpoint, Segment};
use dist_messages::Side;
use dist_talk::{Unreached, other_side};
use std::alloc::{AllocError, Global};
use std::mem;

// How long the side whose turn it is may say nothing before it counts as silent, in nanoseconds. A node gives up after 7 seconds
// (`net_setuptime`), which it counts from before its connect; so 6. Our own choice.
const PATIENCE: u64 = 6_000_000_000;

// In how many pieces the bytes come that are kept. Our own choice.
const MOST_PIECES: usize = 512;

/// What the segments between two ports came to.
#[derive(Drop)]
pub struct Conversation {
    /// Where the side that dialled has its port.
    pub dialler: Endpoint,
    /// Where the other side has its port.
    pub acceptor: Endpoint,
    /// When its first segment was captured, in nanoseconds since 1970.
    pub began: u64,
    /// When its latest segment was captured.
    pub latest: u64,
    /// Whether its port is that of port mappers.
    pub is_at_mapper: bool,
    /// What it carries, as far as its first bytes show that.
    pub shown: Shown,
    /// How many segments would end it, and have a number that the other side does not await: they end nothing.
    pub strays: u32,
    /// The pieces in which the bytes came that are kept of both sides.
    pub pieces: Pieces,
    // The number of the segment (SYN) by which it was dialled.
    opening: Option<u32>,
    // Whether it was dialled again: a host that has no answer sends that segment again after a second.
    is_dialled_again: bool,
    // Whether a segment shows who dialled.
    is_certain: bool,
    // Whether any other segment was captured than those that dial it, or refuse that.
    is_made: bool,
    // Whether a side reset it.
    is_reset: bool,
    from_dialler: Flow,
    from_acceptor: Flow,
}

/// Whether our patience has an end between these two times.
pub fn is_long(since: u64, until: u64) -> bool
    ensures { result ≡ is_overdue_at since until }
{
    until.saturating_sub(since) >= PATIENCE
}

// Who dialled: whoever sends the first segment without an acknowledgement, or does not have the port mapper's port; else whoever is seen
// first.
fn is_from_dialler(segment: &Segment, mapper_port: u16) -> bool
    ensures { result ≡ is_from_dialler mapper_port segment.now }
{
    if segment.is_syn {
        !segment.is_ack
    } else {
        segment.from.port != mapper_port
    }
}

// Notes that a side ended by this segment what it sends, and what it had received.
fn end_flow(own: &mut Flow, other: &mut Flow, segment: &Segment)
    ensures { (other.new ≡ with_answer segment.now.acknowledges other.old) × (own.new ≡ with_end segment.now other.new own.old) }
{
    other.take_answer(segment);
    own.note_end(segment, other);
}

impl Conversation {
    /// The conversation of this segment, which was not taken yet.
    pub fn new(alloc: Global, segment: &Segment, mapper_port: u16) -> Conversation
        ensures { result ≡ begun mapper_port segment.now }
    {
        let (dialler, acceptor) = if is_from_dialler(segment, mapper_port) {
            (segment.from, segment.to)
        } else {
            (segment.to, segment.from)
        };
        let is_at_mapper = acceptor.port == mapper_port;
        Conversation {
            dialler,
            acceptor,
            began: segment.time,
            latest: segment.time,
            is_at_mapper,
            shown: if is_at_mapper {
                Shown::Mapper
            } else {
                Shown::Nothing
            },
            strays: 0,
            pieces: Pieces::new(alloc),
            opening: None,
            is_dialled_again: false,
            is_certain: segment.is_syn,
            is_made: false,
            is_reset: false,
            from_dialler: Flow::new(segment.time),
            from_acceptor: Flow::new(segment.time),
        }
    }

    /// What a side sends.
    pub fn flow(&self, side: Side) -> &Flow
        ensures { result.now ≡ flow_of side self.now }
    {
        match side {
            Side::Dialler => &self.from_dialler,
            Side::Acceptor => &self.from_acceptor,
        }
    }

    /// Whether this segment goes from one of its two ends to the other one.
    pub fn is_between(&self, segment: &Segment) -> bool
        ensures { IsTrue result ↔ IsBetween self.now segment.now }
    {
        let (dialler, acceptor) = (self.dialler, self.acceptor);
        segment.from == dialler && segment.to == acceptor
            || segment.from == acceptor && segment.to == dialler
    }

    /// The side that sends this segment.
    pub fn side_of(&self, segment: &Segment) -> Side
        ensures { IsFrom self.now segment.now result }
    {
        if segment.from == self.dialler {
            Side::Dialler
        } else {
            Side::Acceptor
        }
    }

    // ---- it is collected

    // Notes that the connection is dialled, or was made, if a segment shows it.
    fn note_sign(&mut self, segment: &Segment)
        ensures { self.new ≡ with_sign segment.now self.old }
    {
        self.latest = segment.time;
        let is_opening = segment.is_syn && !segment.is_ack;
        if is_opening {
            self.is_dialled_again = self.is_dialled_again || self.opening.is_some();
            self.opening = self.opening.or(Some(segment.sequence));
        }
        self.is_certain = self.is_certain || segment.is_syn;
        self.is_made = self.is_made || !(is_opening || segment.is_reset || segment.is_fin);
    }

    // Takes a segment of this side that is no reset, and notes what it acknowledges.
    fn gather(&mut self, alloc: Global, side: Side, segment: &Segment) -> Result<(), AllocError>
        ensures { OnOk result (self.new ≡ with_pieces side segment.now self.old) }
    {
        let room = self.pieces.as_slice().len() < MOST_PIECES;
        let before = self.flow(side).bytes().len();
        match side {
            Side::Dialler => {
                self.from_acceptor.take_answer(segment);
                self.from_dialler.take(alloc, segment, room)?;
            }
            Side::Acceptor => {
                self.from_dialler.take_answer(segment);
                self.from_acceptor.take(alloc, segment, room)?;
            }
        }
        let until = self.flow(side).bytes().len();
        if until > before {
            let at = segment.time;
            self.pieces.push(Arrival { side, until, at })?;
        }
        Ok(())
    }

    // Whether this segment of this side, which closes or resets the connection, has a number that may. A reset of the accepting side answers
    // the segment that dials, or that was answered.
    fn can_end(&self, side: Side, segment: &Segment) -> bool
        ensures { result ≡ can_end side segment.now self.now }
    {
        let is_answer = match (side, self.opening) {
            (Side::Acceptor, Some(opening)) if segment.is_reset && !self.is_made => {
                segment.acknowledges == Some(opening.wrapping_add(1))
            }
            _ => true,
        };
        let window = self.flow(other_side(side)).window;
        self.flow(side).may_end(segment, window) && is_answer
    }

    // Notes that a side closed or reset the connection, if a segment says so, and has a number that may.
    fn note_end(&mut self, side: Side, segment: &Segment)
        ensures { self.new ≡ with_ending side segment.now self.old }
    {
        if !segment.is_fin && !segment.is_reset {
            return;
        }
        if !self.can_end(side, segment) {
            self.strays = self.strays.saturating_add(1);
            return;
        }
        self.is_reset = self.is_reset || segment.is_reset;
        match side {
            Side::Dialler => end_flow(&mut self.from_dialler, &mut self.from_acceptor, segment),
            Side::Acceptor => end_flow(&mut self.from_acceptor, &mut self.from_dialler, segment),
        }
    }

    // The side that was taken for the one that dialled is the other one.
    fn swap_sides(&mut self)
        ensures { self.new ≡ swapped self.old }
    {
        mem::swap(&mut self.dialler, &mut self.acceptor);
        mem::swap(&mut self.from_dialler, &mut self.from_acceptor);
        self.pieces.swap_sides();
    }

    // Finds out what it carries, if that is not known, and enough was captured for that. What is not looked into is not kept.
    fn recognize(&mut self)
        ensures { self.new ≡ recognized self.old }
    {
        if !matches!(self.shown, Shown::Nothing) {
            return;
        }
        let (dialler, acceptor) = (self.from_dialler.bytes(), self.from_acceptor.bytes());
        let (shown, is_swapped) = shown_by((look_at(dialler), look_at(acceptor)), self.is_certain);
        self.shown = shown;
        if is_swapped {
            self.swap_sides();
        }
        if matches!(self.shown, Shown::Tls | Shown::Other) {
            self.stop_reading();
        }
    }

    /// Keeps and reads no more of its bytes.
    pub fn stop_reading(&mut self)
        ensures { self.new ≡ left self.old }
    {
        self.from_dialler.stop_reading();
        self.from_acceptor.stop_reading();
        self.pieces.clear();
    }

    /// Takes the next of its segments.
    pub fn take(&mut self, alloc: Global, segment: &Segment) -> Result<(), AllocError>
        ensures { OnOk result (Takes self.old segment.now self.new) }
    {
        let side = self.side_of(segment);
        self.note_sign(segment);
        if !segment.is_reset {
            self.gather(alloc, side, segment)?;
        }
        self.note_end(side, segment);
        self.recognize();
        Ok(())
    }

    // ---- what is said of it

    /// The first end that is known: by whom, and how. The side that acknowledges the close of the other one ended after it, in whatever
    /// order the capture has the two.
    pub fn first_end(&self) -> Option<(Side, FlowEnd)>
        ensures { result ≡ first_end self.now }
    {
        match (
            self.from_dialler.known_end(),
            self.from_acceptor.known_end(),
        ) {
            (Some(end), Some(other)) if end.is_behind(other) => Some((Side::Acceptor, other)),
            (Some(end), _) => Some((Side::Dialler, end)),
            (None, Some(end)) => Some((Side::Acceptor, end)),
            (None, None) => None,
        }
    }

    /// The same, or else an end behind bytes that are not in the capture.
    pub fn any_end(&self) -> Option<(Side, FlowEnd)>
        ensures { result ≡ any_end self.now }
    {
        if let Some(first) = self.first_end() {
            return Some(first);
        }
        if let Some(end) = self.from_dialler.end
            && !end.is_second
        {
            return Some((Side::Dialler, end));
        }
        match self.from_acceptor.end {
            Some(end) => Some((Side::Acceptor, end)),
            None => None,
        }
    }

    /// When it ended; this time if its end is not in the capture.
    pub fn end_or(&self, now: u64) -> u64
        ensures { result ≡ ended_or self.now now }
    {
        match self.any_end() {
            Some((_, end)) => end.at,
            None => now,
        }
    }

    /// Whether the capture lacks bytes of a side.
    pub fn lacks_bytes(&self, side: Side) -> bool
        ensures { result ≡ lacks_bytes side self.now }
    {
        self.flow(side)
            .lacks_bytes(self.flow(other_side(side)).known_end())
    }

    /// Why it was never made: its first segment was answered by a reset, or by nothing until this time. `None` if it was made, or if
    /// that is not in the capture.
    pub fn connect_fault(&self, now: u64) -> Option<Unreached>
        ensures { result ≡ unreached_of self.now now }
    {
        if self.is_made || self.opening.is_none() {
            return None;
        }
        match self.from_acceptor.end {
            Some(end) if end.is_reset => Some(Unreached::Refused),
            None if self.is_dialled_again && is_long(self.began, now) => Some(Unreached::NoAnswer),
            _ => None,
        }
    }

    // Whether a segment shows that both sides, or one of them, ended it.
    fn ends(&self) -> (bool, bool) {
        (
            self.from_dialler.end.is_some(),
            self.from_acceptor.end.is_some(),
        )
    }

    /// Whether both sides closed it, or one reset it; or it carries what is not looked into.
    pub fn is_finished(&self) -> bool {
        let (dialler, acceptor) = self.ends();
        self.is_reset || dialler && acceptor || matches!(self.shown, Shown::Other)
    }

    /// Whether this segment begins a new one between the same two ports: it dials, is no copy of the segment that began this one, and this
    /// one ended (`is_over`, or a side ended it) or was long quiet.
    pub fn is_before(&self, segment: &Segment, is_over: bool) -> bool {
        let is_dial = segment.is_syn && !segment.is_ack;
        let (dialler, acceptor) = self.ends();
        let is_past = is_over || dialler || acceptor || is_long(self.latest, segment.time);
        is_dial && self.opening != Some(segment.sequence) && is_past
    }
}
