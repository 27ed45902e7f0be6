//! All conversations of a capture, segment by segment.

ghost use Rattle.std.specs.Prelude.{◌≡◌, ◌<◌, ℕ, Bool, IfOk, IfSome, List, None, OnOk, Some, [], false, length, vec_len};
ghost use Rattle.dist_capture.specs.declared.segment.Segment.{Segment};
ghost use Rattle.dist_conversation.specs.Conversations.{begun};
ghost use Rattle.dist_talk.specs.declared.terms.Terms.{Terms};
ghost use Rattle.distping_capture.specs.Captures.{Ends, EndsAll, Follows, FollowsAll, GoesOnAll, GoesOnBy, IsPlaceOf, Keeps, Renews, TakesInAll, TakesNext};
ghost use Rattle.distping_capture.specs.declared.left_out.PacketsLeftOut.{PacketsLeftOut};
ghost use Rattle.distping_report.specs.Sinks.{SinkState};

use crate::journal::CaptureJournal;
use crate::left_out::PacketsLeftOut;
use dist_capture::{Segment, SkippedCounts};
use dist_conversation::{Carried, Conclusion, Conversation, judge_at_end, judge_now};
use dist_talk::Terms;
use distping_report::{LineSink, ResultSink};
use distping_words::Fault;
use std::alloc::Global;
use std::io::Write;

// The most connections that are remembered: for another one the one is forgotten that ended first, or else the one that was quiet for
// longest. Our own choice.
const MOST_CONNECTIONS: usize = 1024;

/// A connection: its conversation, what that came to, once it was judged, and whether all was printed that there is to say of it.
#[derive(Drop)]
pub struct CapturedConnection {
    seen: Conversation,
    judged: Option<Conclusion>,
    is_over: bool,
    // Whether the verdict rests on how it ended, and no segment has left that in doubt.
    rests_on_end: bool,
}

impl CapturedConnection {
    // The connection that this segment begins, which was not taken yet.
    fn new(alloc: Global, segment: &Segment, mapper_port: u16) -> CapturedConnection
        ensures seen { result.seen ≡ begun mapper_port segment.now }
        ensures open_ { (result.judged ≡ None) × (result.is_over ≡ false) }
    {
        CapturedConnection {
            seen: Conversation::new(alloc, segment, mapper_port),
            judged: None,
            is_over: false,
            rests_on_end: false,
        }
    }

    // Whether it is forgotten before another one: it ended, and the other one did not; or both did or neither, and it was quiet for longer.
    fn is_older(&self, other: &CapturedConnection) -> bool {
        if self.is_over == other.is_over {
            self.seen.latest < other.seen.latest
        } else {
            self.is_over
        }
    }

    // It is judged so: that is printed, and no more is read.
    fn note<W: Write>(
        &mut self,
        journal: &mut CaptureJournal<'_, W>,
        judged: Conclusion,
        now: u64,
    ) -> Result<(), Fault>
        ensures keeps { OnOk result (GoesOnBy self.old.seen now judged journal.old journal.new) }
        ensures judged { OnOk result ((self.new.judged ≡ Some judged) × (self.new.is_over ≡ self.old.is_over)) }
    {
        journal.note(&self.seen, &judged, now)?;
        self.seen.stop_reading();
        if judged.verdict.is_some() {
            self.seen.strays = 0;
        }
        self.judged = Some(judged);
        Ok(())
    }

    // It is judged, if it is due.
    fn judge_open<W: Write>(
        &mut self,
        journal: &mut CaptureJournal<'_, W>,
        now: u64,
    ) -> Result<(), Fault>
        ensures { OnOk result (self.old.is_over ≡ false → Ends self.old self.new journal.old journal.new) }
    {
        if self.judged.is_some() {
            return Ok(());
        }
        match judge_now(journal.lines.alloc, &self.seen, &journal.terms)? {
            Some(judged) => self.note(journal, judged, now),
            None => Ok(()),
        }
    }

    // It is judged at its end, unless it was before.
    fn judge_last<W: Write>(
        &mut self,
        journal: &mut CaptureJournal<'_, W>,
        now: u64,
    ) -> Result<(), Fault>
        ensures { OnOk result (self.old.is_over ≡ false → Ends self.old self.new journal.old journal.new) }
    {
        if self.judged.is_some() {
            return Ok(());
        }
        let other = journal.other_end(self.seen.acceptor);
        let alloc = journal.lines.alloc;
        let judged = judge_at_end(alloc, &self.seen, other, &journal.terms, now)?;
        self.note(journal, judged, now)
    }

    // Prints how it ended, and returns whether the verdict rests on that.
    fn put_end<W: Write>(
        &self,
        journal: &mut CaptureJournal<'_, W>,
        now: u64,
    ) -> Result<bool, Fault>
        ensures { OnOk result ((t : Terms) (port : ℕ) (segments : List Segment) (json : Bool) (old : SinkState)
            → Follows t port segments self.now → Keeps t port segments json old journal.old → Keeps t port segments json old journal.new) }
    {
        let Some(judged) = &self.judged else {
            return Ok(false);
        };
        journal.end(&self.seen, judged, now)?;
        Ok(judged.rests_on_end())
    }

    // Prints what there is to say of it at its end, once: it is judged, unless it was before. What was said on it is then forgotten.
    fn end<W: Write>(&mut self, journal: &mut CaptureJournal<'_, W>, now: u64) -> Result<(), Fault>
        ensures { OnOk result (Ends self.old self.new journal.old journal.new) }
    {
        if self.is_over {
            return Ok(());
        }
        self.judge_last(journal, now)?;
        self.rests_on_end = self.put_end(journal, now)?;
        self.is_over = true;
        self.judged = None;
        Ok(())
    }

    // Takes a segment behind its end: a copy of a packet, or bytes that leave the verdict in doubt.
    fn take_late<W: Write>(
        &mut self,
        journal: &CaptureJournal<'_, W>,
        segment: &Segment,
    ) -> Result<(), Fault>
        ensures { OnOk result (self.new ≡ record self.old { rests_on_end = self.new.rests_on_end }) }
    {
        let side = self.seen.side_of(segment);
        if self.rests_on_end && self.seen.flow(side).is_overrun_by(segment) {
            self.rests_on_end = false;
            return journal.doubt(&self.seen, side);
        }
        Ok(())
    }

    // Notes the host of a segment, if it is the first of its side.
    fn note_host<W: Write>(
        &self,
        journal: &mut CaptureJournal<'_, W>,
        segment: &Segment,
    ) -> Result<(), Fault>
        ensures { OnOk result (journal.new ≡ record journal.old { hosts = journal.new.hosts }) }
    {
        if self.seen.flow(self.seen.side_of(segment)).is_unseen() {
            journal.note_host(segment.from.address)?;
        }
        Ok(())
    }

    // Whether it ends with the segment that was taken.
    fn is_at_end(&self) -> bool {
        let is_nothing = matches!(
            &self.judged,
            Some(Conclusion {
                carried: Carried::Nothing,
                ..
            },)
        );
        is_nothing || self.seen.is_finished()
    }

    // It ends, if it does with the segment that was taken.
    fn end_if_finished<W: Write>(
        &mut self,
        journal: &mut CaptureJournal<'_, W>,
        now: u64,
    ) -> Result<(), Fault>
        ensures { OnOk result (Ends self.old self.new journal.old journal.new) }
    {
        if !self.is_at_end() {
            return Ok(());
        }
        self.end(journal, now)
    }

    // Takes a segment of it. It ends with it, or is judged, if it is due.
    fn take<W: Write>(
        &mut self,
        journal: &mut CaptureJournal<'_, W>,
        segment: &Segment,
    ) -> Result<(), Fault>
        ensures { OnOk result (TakesNext segment.now self.old self.new journal.old journal.new) }
    {
        if self.is_over {
            return self.take_late(journal, segment);
        }
        self.note_host(journal, segment)?;
        self.seen.take(journal.lines.alloc, segment)?;
        self.judge_open(journal, segment.time)?;
        self.end_if_finished(journal, segment.time)
    }

    // Ends, if this segment begins another one between the same two ports, which then takes its place. What came behind its latest segment is not
    // in the capture.
    fn renew<W: Write>(
        &mut self,
        journal: &mut CaptureJournal<'_, W>,
        segment: &Segment,
        mapper_port: u16,
    ) -> Result<(), Fault>
        ensures { OnOk result (Renews segment.now mapper_port self.old self.new journal.old journal.new) }
    {
        if !self.seen.is_before(segment, self.is_over) {
            return Ok(());
        }
        let latest = self.seen.latest;
        self.end(journal, latest)?;
        *self = CapturedConnection::new(journal.lines.alloc, segment, mapper_port);
        Ok(())
    }
}

/// All connections.
#[derive(Drop)]
pub struct CapturedConnections<'x, W: Write> {
    journal: CaptureJournal<'x, W>,
    // The port of port mappers.
    mapper_port: u16,
    // Those that are open, and those that ended and were not forgotten: so a late copy of a packet begins none. The oldest first.
    connections: Vec<Box<CapturedConnection>>,
    // The time of the latest segment.
    latest: u64,
    // How many were forgotten that were open.
    forgotten: u64,
}

impl<'x, W: Write> CapturedConnections<'x, W> {
    /// Nothing was seen. The texts of verdicts go to `results`.
    pub fn new(
        lines: LineSink<'x>,
        terms: Terms<'x>,
        mapper_port: u16,
        results: ResultSink<W>,
    ) -> CapturedConnections<'x, W>
        ensures { FollowsAll terms.entry mapper_port [] lines.entry.quiet results result }
    {
        CapturedConnections {
            journal: CaptureJournal::new(lines, terms, results),
            mapper_port,
            connections: Vec::new(lines.alloc),
            latest: 0,
            forgotten: 0,
        }
    }

    // The connection that is to be forgotten first.
    fn oldest(&self) -> usize
        ensures { 0 < vec_len self.now.connections → result < vec_len self.now.connections }
    {
        let mut place = 0;
        for at in 1..self.connections.len() {
            if self.connections[at].is_older(&self.connections[place]) {
                place = at;
            }
        }
        place
    }

    // Forgets a connection, and prints what there is to say of it.
    fn give_up(&mut self) -> Result<(), Fault>
        requires { 0 < vec_len self.old.connections }
        ensures fewer { OnOk result (length self.new.connections.items < length self.old.connections.items) }
        ensures goes_on { OnOk result (GoesOnAll self.old self.new) }
    {
        let oldest = self.oldest();
        let mut given_up = self.connections.remove(oldest);
        given_up.end(&mut self.journal, self.latest)
    }

    // Forgets one, if there is no room for another one.
    fn make_room(&mut self) -> Result<(), Fault>
        ensures { OnOk result (GoesOnAll self.old self.new) }
    {
        if self.connections.len() < MOST_CONNECTIONS {
            return Ok(());
        }
        self.forgotten = self.forgotten.saturating_add(self.count_open());
        self.give_up()
    }

    // How many open ones are forgotten with the one that is to be forgotten first.
    fn count_open(&self) -> u64 {
        match self.connections.get(self.oldest()) {
            Some(connection) if !connection.is_over => 1,
            _ => 0,
        }
    }

    // Where the connection of a segment is, if one is remembered. Those that began last are looked at first.
    fn place_of(&self, segment: &Segment) -> Option<usize>
        ensures within { IfSome result (λ place. place < length self.now.connections.items) }
        ensures there { IfSome result (IsPlaceOf segment.now self.now) }
    {
        let mut place = self.connections.len();
        while place > 0 {
            place -= 1;
            if self.connections[place].seen.is_between(segment) {
                return Some(place);
            }
        }
        None
    }

    // The connection at this place takes a segment, or another one that begins with it.
    fn hand_on(&mut self, place: usize, segment: &Segment) -> Result<(), Fault>
        ensures { OnOk result (place < length self.old.connections.items → IsPlaceOf segment.now self.old place → TakesInAll segment.now self.old self.new) }
    {
        let Some(connection) = self.connections.get_mut(place) else {
            return Ok(());
        };
        let connection = &mut **connection;
        connection.renew(&mut self.journal, segment, self.mapper_port)?;
        connection.take(&mut self.journal, segment)
    }

    // A new connection begins with this segment.
    fn begin(&mut self, segment: &Segment) -> Result<(), Fault>
        ensures { OnOk result (TakesInAll segment.now self.old self.new) }
    {
        let alloc = self.journal.lines.alloc;
        let mut connection = CapturedConnection::new(alloc, segment, self.mapper_port);
        connection.take(&mut self.journal, segment)?;
        let made = Box::new(alloc, connection)?;
        self.connections.push(made)?;
        Ok(())
    }

    /// Takes the next segment of the capture: it is of a connection that is remembered, or begins one, which may take the place of another
    /// one between the same two ports.
    pub fn take(&mut self, segment: &Segment) -> Result<(), Fault>
        ensures { OnOk result (TakesInAll segment.now self.old self.new) }
    {
        self.latest = segment.time;
        if let Some(place) = self.place_of(segment) {
            return self.hand_on(place, segment);
        }
        self.make_room()?;
        self.begin(segment)
    }

    /// Prints what is open, the longest quiet first.
    pub fn give_up_all(&mut self) -> Result<(), Fault>
        ensures { OnOk result (GoesOnAll self.old self.new) }
    {
        'open: while !self.connections.is_empty() {
            self.give_up()?;
        }
        Ok(())
    }

    /// Ends the capture, of which so many packets gave no segment: prints what is open, then the summary by pair, and what was left out.
    /// Returns the exit status: the first that is not 0 of the attempts.
    pub fn finish(&mut self, counts: SkippedCounts, is_cut_off: bool) -> Result<u8, Fault>
        ensures { IfOk result (λ status. (left_out : PacketsLeftOut) × ((left_out.counts ≡ counts) × (left_out.is_cut_off ≡ is_cut_off))
            × EndsAll left_out status self.old self.new.journal.results) }
    {
        self.give_up_all()?;
        self.journal.finish(&PacketsLeftOut {
            counts,
            forgotten: self.forgotten,
            is_cut_off,
        })
    }

    /// Gives back where the texts of verdicts went.
    pub fn into_results(self) -> ResultSink<W>
        ensures { result ≡ self.entry.journal.results }
    {
        self.journal.results
    }
}
