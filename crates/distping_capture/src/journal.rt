//! What is printed of conversations, and what several of them show together: how often which pair of nodes came to what, restarts, names
//! that two hosts use, dials that cross, lookups that lead elsewhere, and what leaves a wrong cookie in doubt.

ghost use Rattle.std.specs.Prelude.{◌≡◌, ◌++◌, ◌==◌, ◌∷◌, List, ℕ, Some, [], IfOk, OnOk, false, if◌then◌else◌};
ghost use Rattle.dist_conversation.specs.Verdicts.{is_talk, name_said};
ghost use Rattle.dist_messages.specs.declared.message.Side.TheVariants.{Dialler};
ghost use Rattle.distping_capture.specs.Captures.{Adds, AddsOf, GoesOnBy, GoesOnOf, Keeps, StandsFor, exit_now, first_exit};
ghost use Rattle.distping_capture.specs.Printing.{PrintsEnd, PrintsNoted, PrintsOutcome};
ghost use Rattle.distping_capture.specs.declared.dials.PastDial.{PastDial};

use crate::dials::{PastDial, add};
use crate::left_out::PacketsLeftOut;
use crate::lines::{Sheet, print_verdict, put_cookie};
use crate::nodes::NodesSeen;
use crate::objects::{attempt_object, capture_object, doubt_object, mapper_object};
use crate::say::say;
use crate::summary::{count_all, put_pairs};
use dist_capture::{Endpoint, Segment};
use dist_conversation::{Conclusion, Conversation, OtherEnd};
use dist_epmd::{Answer, Request};
use dist_messages::Side;
use dist_names::ByteString;
use dist_talk::{HandshakeVerdict, Terms};
use distping_report::{LineSink, ResultSink};
use distping_words::Fault;
use std::alloc::AllocError;
use std::io::Write;
use std::mem;
use std::net::IpAddr;

// The most attempts that are remembered for those that come later. Our own choice.
const MOST_DIALS: usize = 256;

// The most hosts that are remembered. Of one that is not remembered it is not said that it gives no answer. Our own choice.
const MOST_HOSTS: usize = 4096;

// What is printed where a node was stopped when it ended a connection as if by a wrong cookie.
const STOPPED: &str =
    "!  doubt     the connection and the registration of this node ended at once: it was stopped, and its cookie may be the right one";

/// Prints, and remembers.
#[derive(Drop)]
pub struct CaptureJournal<'x, W: Write> {
    /// Where lines are printed; if they are left out, objects are.
    pub lines: LineSink<'x>,
    /// Where the texts of verdicts are printed, or their objects.
    pub results: ResultSink<W>,
    /// What handshakes are judged by.
    pub terms: Terms<'x>,
    nodes: NodesSeen,
    // The hosts that sent a segment.
    hosts: Vec<IpAddr>,
    // The latest attempts, the oldest first.
    dials: Vec<PastDial>,
    // The earlier ones, counted, in order; and the first status of them that is not 0.
    counted: Vec<PastDial>,
    status: u8,
    // Which port the node had whose registration ended last, and when that was.
    unregistered: Option<(u16, u64)>,
    // Whether anything of the distribution was found.
    has_found: bool,
}

// The first status that is not 0 of these attempts.
fn first_exit(dials: &[PastDial]) -> u8
    ensures { result ≡ first_exit dials.now }
{
    match dials {
        [] => 0,
        [dial, ..] if dial.exit != 0 => dial.exit,
        [_, rest @ ..] => first_exit(rest),
    }
}

impl<'x, W: Write> CaptureJournal<'x, W> {
    /// Nothing is remembered.
    pub fn new(
        lines: LineSink<'x>,
        terms: Terms<'x>,
        results: ResultSink<W>,
    ) -> CaptureJournal<'x, W>
        ensures { (port : ℕ) → Keeps terms.entry port [] lines.entry.quiet results result }
    {
        let alloc = lines.alloc;
        CaptureJournal {
            lines,
            results,
            terms,
            nodes: NodesSeen::new(alloc),
            hosts: Vec::new(alloc),
            dials: Vec::new(alloc),
            counted: Vec::new(alloc),
            status: 0,
            unregistered: None,
            has_found: false,
        }
    }

    // ---- what is known of other ends

    fn is_seen(&self, host: IpAddr) -> bool {
        self.hosts.iter().any(|it| *it == host)
    }

    /// Notes that a host sent a segment.
    pub fn note_host(&mut self, host: IpAddr) -> Result<(), AllocError>
        ensures { OnOk result (self.new ≡ record self.old { hosts = self.new.hosts }) }
    {
        if self.hosts.len() < MOST_HOSTS && !self.is_seen(host) {
            self.hosts.push(host)?;
        }
        Ok(())
    }

    /// What is known of the other end of a conversation to this port.
    pub fn other_end(&self, place: Endpoint) -> OtherEnd {
        OtherEnd {
            is_node: self.nodes.is_at(place),
            is_seen: self.is_seen(place.address),
        }
    }

    // ---- attempts

    // Counts what a dial came to. The first status that is not 0 counts.
    fn settle(&mut self, dial: PastDial) -> Result<(), AllocError>
        ensures { OnOk result (self.new ≡ record self.old {
          status = if self.old.status == 0 then dial.exit else self.old.status;
          counted = self.new.counted;
        }) }
    {
        if self.status == 0 {
            self.status = dial.exit;
        }
        if dial.is_dial {
            add(&mut self.counted, dial)?;
        }
        Ok(())
    }

    // Counts the oldest attempt, if there are more than are remembered.
    fn settle_oldest(&mut self) -> Result<(), AllocError>
        ensures same { OnOk result ((self.new.results ≡ self.old.results) × (self.new.terms ≡ self.old.terms) × (self.new.lines ≡ self.old.lines)) }
        ensures stands { OnOk result ((attempts : List PastDial) → StandsFor self.old attempts → StandsFor self.new attempts) }
    {
        if self.dials.len() <= MOST_DIALS {
            return Ok(());
        }
        let oldest = self.dials.remove(0);
        self.settle(oldest)
    }

    // Remembers an attempt behind those that are remembered.
    fn push_dial(&mut self, dial: PastDial) -> Result<(), AllocError>
        ensures same { OnOk result ((self.new.results ≡ self.old.results) × (self.new.terms ≡ self.old.terms) × (self.new.lines ≡ self.old.lines)) }
        ensures stands { OnOk result ((earlier : List PastDial) → self.old.status ≡ first_exit earlier
            → StandsFor self.new (earlier ++ (self.old.dials.items ++ dial ∷ []))) }
    {
        self.has_found = true;
        self.dials.push(dial)?;
        self.settle_oldest()
    }

    // Prints if an attempt ended when the registration of its node did.
    fn put_stopped(&self, dial: &PastDial) -> Result<(), Fault> {
        match self.unregistered {
            Some((port, at)) if dial.ended_with(port, at) => say(self.lines, STOPPED, &[]),
            _ => Ok(()),
        }
    }

    // Remembers an attempt, and prints what it shows together with earlier ones.
    fn add_attempt(&mut self, dial: PastDial) -> Result<(), Fault>
        ensures { OnOk result (Adds dial self.old self.new) }
    {
        let mut dial = dial;
        dial.meet_all(self.lines, &mut self.dials)?;
        self.put_stopped(&dial)?;
        Ok(self.push_dial(dial)?)
    }

    // The names of the two nodes of an attempt, which are remembered, with what is printed of them; empty of a talk with a port mapper.
    fn note_names(
        &mut self,
        seen: &Conversation,
        judged: &Conclusion,
    ) -> Result<(ByteString, ByteString), Fault>
        ensures rest { OnOk result (self.new ≡ record self.old { nodes = self.new.nodes }) }
        ensures name { IfOk result (λ names. names.0 ≡ name_said Dialler judged.now.carried) }
    {
        let lines = self.lines;
        let name = ByteString::from_slice(lines.alloc, judged.name_of(Side::Dialler))?;
        if judged.is_talk() {
            return Ok((name, ByteString::new(lines.alloc)));
        }
        self.nodes.note_sides(lines, seen, judged)?;
        let said = judged.name_of(Side::Acceptor);
        let other = self.nodes.acceptor_name(seen.acceptor, said)?;
        self.nodes.put_lookup(lines, seen, other.as_slice())?;
        Ok((name, other))
    }

    // Remembers an attempt that came to this verdict.
    fn note_attempt(
        &mut self,
        seen: &Conversation,
        judged: &Conclusion,
        verdict: HandshakeVerdict,
        now: u64,
    ) -> Result<(), Fault>
        requires { judged.now.verdict ≡ Some verdict }
        ensures { OnOk result (AddsOf seen.now now judged.now self.old self.new) }
    {
        let (name, other) = self.note_names(seen, judged)?;
        self.add_attempt(PastDial {
            name,
            other,
            dialler: seen.dialler,
            acceptor: seen.acceptor,
            began: seen.began,
            ended: seen.end_or(now),
            verdict,
            exit: verdict.status(),
            count: 1,
            is_dial: !judged.is_talk(),
        })
    }

    // Prints the verdict on an attempt, as far as it is to be printed now: its text; or the object of a talk with a port mapper.
    fn put_verdict(
        &mut self,
        seen: &Conversation,
        judged: &Conclusion,
        verdict: HandshakeVerdict,
    ) -> Result<(), Fault>
        ensures rest { OnOk result (self.new ≡ record self.old { results = self.new.results }) }
        ensures prints { OnOk result (PrintsNoted self.old.lines.quiet (is_talk judged.now.carried) verdict self.old.results self.new.results) }
    {
        if !self.lines.quiet {
            print_verdict(
                self.lines,
                verdict,
                self.terms.cookie.is_ok(),
                &mut self.results,
            )?;
            return put_cookie(self.lines, judged, &self.terms);
        }
        if !judged.is_talk() {
            return Ok(());
        }
        let object = mapper_object(self.lines.alloc, seen, judged, verdict)?;
        self.results.print(&object)
    }

    // Remembers the node that a port mapper found, if it did.
    fn note_found(&mut self, seen: &Conversation, judged: &Conclusion) -> Result<(), AllocError>
        ensures { OnOk result (self.new ≡ record self.old { nodes = self.new.nodes }) }
    {
        let Some(talk) = judged.talk() else {
            return Ok(());
        };
        match (&talk.request, &talk.answer) {
            (Some(Request::PortPlease(name)), Some(Answer::Port(Ok(info)))) => self
                .nodes
                .note_found(seen, name.as_slice(), info),
            _ => Ok(()),
        }
    }

    // Notes that something was found, if a port mapper was asked anything.
    fn note_asked(&mut self, judged: &Conclusion)
        ensures rest { self.new ≡ record self.old { has_found = self.new.has_found } }
        ensures found { self.new.has_found ≡ false → self.old.has_found ≡ false }
    {
        if judged.request().is_some() {
            self.has_found = true;
        }
    }

    /// Prints what a conversation came to that is judged now, and remembers it.
    pub fn note(&mut self, seen: &Conversation, judged: &Conclusion, now: u64) -> Result<(), Fault>
        ensures { OnOk result (GoesOnBy seen.now now judged.now self.old self.new) }
    {
        let lines = self.lines;
        Sheet { lines, seen }.put_said(judged)?;
        self.note_found(seen, judged)?;
        self.note_asked(judged);
        let Some(verdict) = judged.verdict else {
            return Ok(());
        };
        self.put_verdict(seen, judged, verdict)?;
        self.note_attempt(seen, judged, verdict, now)
    }

    // ---- the end of a conversation

    // Prints that a registration ended with its connection, and whether an attempt did so at once.
    fn put_unregistered(&mut self, seen: &Conversation, judged: &Conclusion) -> Result<(), Fault>
        ensures { OnOk result (self.new ≡ record self.old { unregistered = self.new.unregistered }) }
    {
        if let Some((port, at)) = judged.lost_registration(seen)
            && let Some(Request::Alive(info)) = judged.request()
        {
            let lines = self.lines;
            Sheet { lines, seen }.put_unregistered(info.name.as_slice())?;
            self.unregistered = Some((port, at));
            if self.dials.iter().any(|it| it.ended_with(port, at)) {
                return say(self.lines, STOPPED, &[]);
            }
        }
        Ok(())
    }

    // Prints how a connection ended that came up.
    fn put_end(&mut self, seen: &Conversation, judged: &Conclusion, now: u64) -> Result<(), Fault>
        ensures { OnOk result (self.new ≡ record self.old { nodes = self.new.nodes }) }
    {
        let Some(up_at) = judged.up_since() else {
            return Ok(());
        };
        let lines = self.lines;
        Sheet { lines, seen }.put_end(up_at, now)?;
        self.nodes.note_end(lines, seen, judged)
    }

    // Prints the object of an attempt, which is no talk with a port mapper.
    fn put_object(
        &mut self,
        seen: &Conversation,
        judged: &Conclusion,
        now: u64,
    ) -> Result<(), Fault>
        ensures rest { OnOk result (self.new ≡ record self.old { results = self.new.results }) }
        ensures prints { OnOk result (PrintsEnd self.old.lines.quiet (is_talk judged.now.carried) judged.now.verdict self.old.results self.new.results) }
    {
        if !self.lines.quiet || judged.is_talk() {
            return Ok(());
        }
        let Some(verdict) = judged.verdict else {
            return Ok(());
        };
        let alloc = self.lines.alloc;
        let object = attempt_object(alloc, seen, judged, verdict, &self.terms, now)?;
        self.results.print(&object)
    }

    /// Prints how a conversation ended by this time, which was judged: of one that came up, or was the registration of a node, lines; and the
    /// object of an attempt.
    pub fn end(&mut self, seen: &Conversation, judged: &Conclusion, now: u64) -> Result<(), Fault>
        ensures { OnOk result (GoesOnOf judged.now.verdict self.old self.new) }
    {
        self.put_end(seen, judged, now)?;
        self.put_unregistered(seen, judged)?;
        self.put_object(seen, judged, now)
    }

    /// Prints that bytes of a side came behind the end on which a verdict rests.
    pub fn doubt(&self, seen: &Conversation, side: Side) -> Result<(), Fault> {
        let lines = self.lines;
        Sheet { lines, seen }.put_doubt(side)?;
        if self.lines.quiet {
            return self
                .lines
                .write_made(doubt_object(self.lines.alloc, seen, side));
        }
        Ok(())
    }

    // ---- the end of the capture

    // The exit status: the first that is not 0 of the attempts, those apart that another dial crossed, and of the port mappers' answers; or that
    // nothing was found.
    fn exit_status(&self) -> u8
        ensures { result ≡ exit_now self.now }
    {
        if !self.has_found {
            return HandshakeVerdict::NothingFound.status();
        }
        if self.status != 0 {
            return self.status;
        }
        first_exit(&self.dials)
    }

    // Prints what was left out, and that nothing was found, if nothing was.
    fn put_outcome(&mut self, left_out: &PacketsLeftOut, status: u8) -> Result<(), Fault>
        ensures { OnOk result (PrintsOutcome self.old.lines.quiet self.old.has_found left_out.now status self.old.results self.new.results) }
    {
        let verdict = HandshakeVerdict::NothingFound;
        if self.lines.quiet {
            let nothing = (!self.has_found).then_some(verdict);
            let object = capture_object(self.lines.alloc, left_out, nothing, status)?;
            return self.results.print(&object);
        }
        left_out.put(self.lines)?;
        if self.has_found {
            return Ok(());
        }
        print_verdict(self.lines, verdict, true, &mut self.results)
    }

    /// Prints the summary, and what was left out, and returns the exit status.
    pub fn finish(&mut self, left_out: &PacketsLeftOut) -> Result<u8, Fault>
        ensures exit { IfOk result (λ status. status ≡ exit_now self.old) }
        ensures prints { IfOk result (λ status. PrintsOutcome self.old.lines.quiet self.old.has_found left_out.now status self.old.results self.new.results) }
    {
        let status = self.exit_status();
        let alloc = self.lines.alloc;
        let dials = mem::replace(&mut self.dials, Vec::new(alloc));
        let mut counted = mem::replace(&mut self.counted, Vec::new(alloc));
        count_all(&mut counted, dials)?;
        put_pairs(self.lines, counted, &self.nodes)?;
        self.put_outcome(left_out, status)?;
        Ok(status)
    }
}
