//! Waits: until what came is decided, and between pieces of what is written.

ghost use Rattle.std.specs.Prelude.{◌≡◌, [], IfOk};
ghost use Rattle.distcheck.specs.Seeing.{EndsAt, HasEnd, HearsMore, IsHeard, IsSaid, SaysFront};

use crate::fault::Fault;
use crate::seen::{StepFact, Timing};
use crate::standing::TalkState;
use crate::talk_link::{TalkLink, WAIT};
use dist_conformance::{Action, Judgement, Saying, TalkStep, bytes_to_say};
use dist_names::ByteString;
use dist_stream::Stream;
use std::alloc::AllocError;
use std::thread::sleep;
use std::time::{Duration, Instant};

/// What was written on a connection in one step. Only [`say`] makes it.
#[derive(Drop)]
pub struct SaidBytes {
    /// These bytes, or a front of them.
    pub bytes: ByteString,
    // Whether the connection took all of them.
    is_whole: bool,
}

impl SaidBytes {
    /// Whether the connection took all of them.
    pub fn is_whole(&self) -> bool {
        self.is_whole
    }
}

/// What came on a connection in one step. Only [`listen`] makes it.
#[derive(Drop)]
pub struct HeardBytes {
    // These bytes.
    bytes: ByteString,
    /// When that was.
    pub timing: Timing,
}

impl HeardBytes {
    /// These bytes.
    pub fn bytes(&self) -> &[u8]
        ensures { result.now ≡ self.now.bytes }
    {
        self.bytes.as_slice()
    }
}

/// How many milliseconds ago this was.
pub fn milliseconds_since(rt: &HostRuntime, since: Instant) -> Result<u32, Fault> {
    let time = since.elapsed(rt).or(Err(Fault::NoTime))?;
    Ok(u32::try_from(time.as_millis()).unwrap_or(u32::MAX))
}

/// Now.
pub fn now(rt: &HostRuntime) -> Result<Instant, Fault> {
    Instant::now(rt).or(Err(Fault::NoTime))
}

// Whether a step that listens is over: by the judgement of what it demands, or by time alone where it tells.
fn is_over(
    state: &TalkState<'_>,
    step: &TalkStep,
    bytes: &[u8],
    timing: Timing,
) -> Result<bool, AllocError> {
    match &step.action {
        Action::Hear(demand) | Action::Want(demand) => {
            let came = state.came_on(step.conn, bytes)?;
            Ok(!matches!(state.judgement(demand, &came, timing), Judgement::More))
        }
        Action::Tell(time) => Ok(timing.end.is_over() || *time <= timing.elapsed),
        _ => Ok(true),
    }
}

// Listens on the connection of a step, until that is over. Returns what came: what was read from its stream, whatever that is.
#[tactic(auto, using(crate::proofs::Hearing::hears_none, crate::proofs::Hearing::hears_on))]
fn listen_until_over<S: Stream>(
    rt: &HostRuntime,
    link: &mut TalkLink<S>,
    state: &TalkState<'_>,
    step: &TalkStep,
) -> Result<HeardBytes, Fault>
    ensures came { IfOk result (λ heard. HearsMore (S.meaning link.old.stream) (S.meaning link.new.stream) [] heard.bytes) }
    ensures ended { IfOk result (λ heard. EndsAt link.old.end (S.meaning link.old.stream) → EndsAt heard.timing.end (S.meaning link.new.stream)) }
{
    let start = now(rt)?;
    let mut bytes = Vec::new(rt.alloc());
    let mut last = 0;
    for _ in 0..u64::MAX {
        let elapsed = milliseconds_since(rt, start)?;
        let timing = Timing {
            end: link.end,
            elapsed,
            pause: elapsed.saturating_sub(last),
        };
        if is_over(state, step, &bytes, timing)? {
            let bytes = ByteString::from_vec(bytes);
            return Ok(HeardBytes { bytes, timing });
        }
        let before = bytes.len();
        if link.is_open() {
            link.listen(&mut bytes)?;
        } else {
            sleep(rt, Duration::from_millis(WAIT));
        }
        if before < bytes.len() {
            last = milliseconds_since(rt, start)?;
        }
    }
    Err(Fault::NoTime)
}

/// Listens as long as a step does. What was seen is what was read.
pub fn listen<S: Stream>(
    rt: &HostRuntime,
    link: &mut TalkLink<S>,
    state: &TalkState<'_>,
    step: &TalkStep,
) -> Result<StepFact, Fault>
    ensures came { IfOk result (IsHeard (S.meaning link.old.stream) (S.meaning link.new.stream)) }
    ensures ended { EndsAt link.old.end (S.meaning link.old.stream) → IfOk result (HasEnd (S.meaning link.new.stream)) }
{
    let heard = listen_until_over(rt, link, state, step)?;
    Ok(StepFact::Heard(heard))
}

// The shortest pause between two pieces, in milliseconds, so that they do not come as one. Our own choice.
const APART: u32 = 2;

// Writes these bytes, in pieces of as many as the step says at most, with its pause between them. Returns whether all were taken.
fn write_pieces<S: Stream>(
    rt: &HostRuntime,
    link: &mut TalkLink<S>,
    bytes: &[u8],
    saying: &Saying,
) -> bool
    ensures { SaysFront (S.meaning link.old.stream) (S.meaning link.new.stream) bytes.now result }
{
    if saying.pieces == 0 {
        return link.write(rt, bytes);
    }
    let pause = Duration::from_millis(u64::from(saying.pause.max(APART)));
    let mut at = 0;
    while at < bytes.len() {
        if at != 0 {
            sleep(rt, pause);
        }
        let end = bytes.len().min(at.saturating_add(saying.pieces as usize));
        if !link.write(rt, &bytes[at..end]) {
            return false;
        }
        at = end;
    }
    true
}

/// Says what a step says. What was seen is what was written.
pub fn say<S: Stream>(
    rt: &HostRuntime,
    link: &mut TalkLink<S>,
    state: &TalkState<'_>,
    saying: &Saying,
) -> Result<StepFact, Fault>
    ensures { IfOk result (IsSaid (S.meaning link.old.stream) (S.meaning link.new.stream)) }
{
    let cookie = state.terms.cookie;
    match bytes_to_say(rt.alloc(), saying, link.conn, &state.learned, cookie)? {
        None => Ok(StepFact::Unsaid),
        Some(bytes) => {
            let is_whole = write_pieces(rt, link, &bytes, saying);
            let bytes = ByteString::from_vec(bytes);
            Ok(StepFact::Said(SaidBytes { bytes, is_whole }))
        }
    }
}
