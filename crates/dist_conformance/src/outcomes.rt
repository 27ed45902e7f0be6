//! What a single pattern makes of what came.

ghost use Rattle.std.specs.{Prelude.◌≡◌, Prelude.length, Prelude.option_map, Prelude.if◌then◌else◌, Int.w32, List.list_all};
ghost use Rattle.dist_names.specs.Fields.{number_at};
ghost use Rattle.dist_conformance.specs.Judging.{observation_of, passes, part_outcome, open_for, if_nothing, by_bytes, passes_if};
ghost use Rattle.dist_conformance.specs.Judging.{check_passes, learned_from, passage_of, by_message, body_outcome, by_whole, by_packets};
ghost use Rattle.dist_conformance.specs.Judging.{are_lines, is_line, has_line, names_pass, by_names, outcome_of};
ghost use Rattle.dist_conformance.specs.Outcomes.{IsWithin};
ghost use Rattle.dist_conformance.specs.declared.outcomes.PatternOutcome.TheVariants as outcome;

use crate::bodies::{number_in, number_of_32, value_in, whole};
use crate::checks::check_passes;
use crate::packets::packets_of;
use crate::patterns::{Check, NamesCheck, PacketCheck, Pattern};
use crate::say::Learned;
use crate::shapes::{ALIVE, Framing, Shape};
use crate::texts::first_part;
use dist_names::{Flags, is_same_text};
use dist_secret::Cookie;

/// What is judged.
#[derive(Clone, Copy)]
pub struct Observed<'a> {
    /// All bytes of the connection behind those that matched before.
    pub came: &'a [u8],
    /// Whether the connection has ended, by a close or a reset.
    pub ended: bool,
    /// How many milliseconds ago the step began.
    pub elapsed: u32,
    /// How many milliseconds the step waits.
    pub limit: u32,
    /// How many milliseconds ago the last byte came, or the step began.
    pub pause: u32,
    /// The numbers that came in this talk so far, in order.
    pub learned: &'a [Learned],
    /// The cookie of the node under test.
    pub cookie: &'a Cookie,
}

/// What matched.
#[derive(Clone, Copy)]
pub struct Passage {
    /// So many bytes.
    pub count: usize,
    /// The challenge in them, or the creation, where there is one.
    pub number: Option<u32>,
    /// The flags of that challenge.
    pub flags: Option<Flags>,
}

impl Passage {
    /// What is learned from it, on this connection: its number, if there is one.
    pub fn learned(&self, conn: u8) -> Option<Learned>
        ensures { result ≡ learned_from conn self.now }
    {
        match self.number {
            Some(number) => Some(Learned {
                conn,
                number,
                flags: self.flags,
            }),
            None => None,
        }
    }
}

/// Why something does not match.
#[derive(Clone, Copy)]
pub enum Deviation {
    /// Something else came.
    Other,
    /// What was awaited came, and one of its fields is not as it has to be.
    Field,
    /// The connection ended before all of it came, or where it had to stay open.
    Closed,
    /// Too little came in time.
    Silent,
}

impl Deviation {
    /// Its word in reports.
    pub fn name(self) -> &'static str {
        match self {
            Deviation::Other => "other",
            Deviation::Field => "field",
            Deviation::Closed => "closed",
            Deviation::Silent => "silent",
        }
    }
}

/// What a pattern makes of what came.
#[derive(Clone, Copy)]
pub enum PatternOutcome {
    /// It matches.
    Matches(Passage),
    /// It does not match, whatever comes.
    Fails(Deviation),
    /// What came does not decide it yet.
    Open,
}

/// So many bytes match, and nothing is learned from them.
pub fn passes(count: usize) -> PatternOutcome
    ensures { result ≡ passes count }
{
    PatternOutcome::Matches(Passage {
        count,
        number: None,
        flags: None,
    })
}

fn passes_if(is_so: bool, count: usize) -> PatternOutcome
    ensures { result ≡ passes_if is_so count }
{
    if is_so {
        passes(count)
    } else {
        PatternOutcome::Fails(Deviation::Other)
    }
}

// What is awaited has not come whole.
fn part_outcome(ended: bool) -> PatternOutcome
    ensures { result ≡ part_outcome ended }
{
    if ended {
        PatternOutcome::Fails(Deviation::Closed)
    } else {
        PatternOutcome::Open
    }
}

// The connection stays open for so many milliseconds.
fn open_for(limit: u32, count: usize, observed: &Observed<'_>) -> PatternOutcome
    ensures { result ≡ open_for limit count (observation_of observed.now) }
{
    if observed.ended {
        PatternOutcome::Fails(Deviation::Closed)
    } else if limit <= observed.elapsed {
        passes(count)
    } else {
        PatternOutcome::Open
    }
}

fn end_outcome(ended: bool) -> PatternOutcome
    ensures { result ≡ (if ended then passes 0 else outcome.Open) }
{
    if ended {
        passes(0)
    } else {
        PatternOutcome::Open
    }
}

fn if_nothing(came: &[u8], meaning: PatternOutcome) -> PatternOutcome
    ensures { result ≡ if_nothing came.now meaning }
{
    match came {
        [] => meaning,
        _ => PatternOutcome::Fails(Deviation::Other),
    }
}

fn bytes_outcome(wanted: &[u8], came: &[u8], ended: bool) -> PatternOutcome
    ensures { result ≡ by_bytes wanted.now came.now ended }
{
    if came.strip_prefix(wanted).is_some() {
        return passes(wanted.len());
    }
    if wanted.strip_prefix(came).is_some() {
        part_outcome(ended)
    } else {
        PatternOutcome::Fails(Deviation::Other)
    }
}

// What is learned from a message of this shape.
fn passage_of(shape: &Shape, body: &[u8], count: usize) -> Passage
    ensures { result ≡ passage_of shape.now body.now count }
{
    let number = match shape.number {
        Some(place) => number_of_32(value_in(shape.fields, place, body).unwrap_or(&[])),
        None => None,
    };
    let flags = match shape.flags {
        Some(place) => Some(Flags(number_in(value_in(shape.fields, place, body).unwrap_or(&[])))),
        None => None,
    };
    Passage {
        count,
        number,
        flags,
    }
}

fn all_pass(checks: &[Check], shape: &Shape, body: &[u8], observed: &Observed<'_>) -> bool
    ensures { result ≡ list_all (check_passes shape.now body.now observed.now.learned.now observed.now.cookie.now) checks.now }
{
    checks
        .iter()
        .all(|check| check_passes(check, shape, body, observed))
}

// What a body means, in so many bytes, where a message is awaited.
fn message_outcome(
    shape: &Shape,
    checks: &[Check],
    observed: &Observed<'_>,
    body: &[u8],
    count: usize,
) -> PatternOutcome
    ensures { result ≡ by_message shape.now checks.now observed.now.learned.now observed.now.cookie.now body.now count }
{
    if value_in(shape.fields, 0, body).is_none() {
        PatternOutcome::Fails(Deviation::Other)
    } else if all_pass(checks, shape, body, observed) {
        PatternOutcome::Matches(passage_of(shape, body, count))
    } else {
        PatternOutcome::Fails(Deviation::Field)
    }
}

// What came, where a message is awaited that ends so.
fn whole_outcome(
    pattern: &Pattern,
    framing: Framing,
    observed: &Observed<'_>,
    came: &[u8],
) -> PatternOutcome
    ensures { result ≡ by_whole pattern.now framing (observation_of observed.now) came.now }
{
    match whole(framing, came) {
        Some((body, rest)) => {
            let count = came.len().saturating_sub(rest.len());
            match pattern {
                Pattern::Body(_, front) => {
                    passes_if(body.strip_prefix(front.as_slice()).is_some(), count)
                }
                Pattern::Message(shape, checks) => {
                    message_outcome(shape, checks.as_slice(), observed, body, count)
                }
                _ => PatternOutcome::Open,
            }
        }
        None => part_outcome(observed.ended),
    }
}

/// The port that is registered in what came, if that begins with a registration.
pub fn registered_port(came: &[u8]) -> Option<u16> {
    let (body, _) = whole(ALIVE.framing, came)?;
    let (port, _) = value_in(ALIVE.fields, 1, body)?.split_first_chunk::<2>()?;
    Some(u16::from_be_bytes(*port))
}

// How many milliseconds a packet may lie in part. Our own choice: a node writes its packets whole.
const STALLED: u32 = 1000;

fn packets_outcome(check: &PacketCheck, observed: &Observed<'_>, came: &[u8]) -> PatternOutcome
    ensures { result ≡ by_packets check.now (observation_of observed.now) came.now }
{
    let state = packets_of(came);
    let is_over = check.time <= observed.elapsed;
    let is_stalled = state.is_part() && (is_over || STALLED <= observed.pause);
    if state.is_bad || (check.most as usize) < state.ticks {
        PatternOutcome::Fails(Deviation::Field)
    } else if observed.ended {
        PatternOutcome::Fails(Deviation::Closed)
    } else if is_stalled || is_over && state.ticks < check.least as usize {
        PatternOutcome::Fails(Deviation::Field)
    } else if is_over {
        passes(came.len())
    } else {
        PatternOutcome::Open
    }
}

// Whether a line is this one, or begins so.
fn is_line(is_whole: bool, wanted: &[u8], line: &[u8]) -> bool
    ensures { result ≡ is_line is_whole wanted.now line.now }
{
    if is_whole {
        is_same_text(line, wanted)
    } else {
        line.strip_prefix(wanted).is_some()
    }
}

// Whether one of the lines of a text is this one, or begins so.
fn has_line(is_whole: bool, wanted: &[u8], text: &[u8]) -> bool
    ensures { result ≡ has_line is_whole wanted.now text.now }
{
    let mut rest = Some(text);
    while let Some(text) = rest {
        let (line, behind) = first_part(text, b'\n');
        if is_line(is_whole, wanted, line) {
            return true;
        }
        rest = behind;
    }
    false
}

fn are_lines(text: &[u8]) -> bool
    ensures { result ≡ are_lines text.now }
{
    text.is_empty() || text.ends_with(b"\n")
}

fn names_pass(check: &NamesCheck, port: u32, text: &[u8]) -> bool
    ensures { result ≡ names_pass check.now port text.now }
{
    match check {
        NamesCheck::Any => true,
        NamesCheck::Port(wanted) => port == *wanted,
        NamesCheck::Has(line) => has_line(true, line.as_slice(), text),
        NamesCheck::Lacks(front) => !has_line(false, front.as_slice(), text),
    }
}

// The whole answer to a question for names.
fn names_outcome(check: &NamesCheck, came: &[u8]) -> PatternOutcome
    ensures { result ≡ by_names check.now (length came.now) (number_at w32 came.now) }
{
    let Some((port, text)) = came.split_first_chunk::<4>() else {
        return PatternOutcome::Fails(Deviation::Closed);
    };
    if are_lines(text) && names_pass(check, u32::from_be_bytes(*port), text) {
        passes(came.len())
    } else {
        PatternOutcome::Fails(Deviation::Field)
    }
}

fn outcome_from(pattern: &Pattern, observed: &Observed<'_>, came: &[u8]) -> PatternOutcome
    ensures { result ≡ outcome_of pattern.now (observation_of observed.now) came.now }
{
    let ended = observed.ended;
    match pattern {
        Pattern::End => if_nothing(came, end_outcome(ended)),
        Pattern::Silence(limit) => if_nothing(came, open_for(*limit, 0, observed)),
        Pattern::Open(limit) => open_for(*limit, came.len(), observed),
        Pattern::Packets(check) => packets_outcome(check, observed, came),
        Pattern::Bytes(wanted) => bytes_outcome(wanted.as_slice(), came, ended),
        Pattern::Body(framing, _) => whole_outcome(pattern, *framing, observed, came),
        Pattern::Message(shape, _) => whole_outcome(pattern, shape.framing, observed, came),
        Pattern::Names(check) if ended => names_outcome(check, came),
        Pattern::Names(_) => PatternOutcome::Open,
    }
}

/// What a pattern makes of what came, from here on.
#[tactic(auto, using(crate::proofs::Within::within))]
pub fn outcome_of(pattern: &Pattern, observed: &Observed<'_>, came: &[u8]) -> PatternOutcome
    ensures same { result ≡ outcome_of pattern.now (observation_of observed.now) came.now }
    ensures within { IsWithin (length came.now) result }
{
    outcome_from(pattern, observed, came)
}
