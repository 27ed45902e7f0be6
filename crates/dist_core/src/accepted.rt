//! What each message does to an accepted end.
ghost use Rattle.std.specs.Prelude.{◌≡◌, List, IfOk, true, false, Ok, Err, Some, None, slice_get};
ghost use Rattle.dist_messages.specs.Views.{message_of};
ghost use Rattle.dist_core_ends.specs.Ends.{entry_in};
ghost use Rattle.dist_core.specs.Accepted.{in_await_true, in_await_complement, in_await_reply, name_taken, verdict_text};
ghost use Rattle.dist_core.specs.{Effects.superseded_end, Effects.supersedes, Effects.held_back, Progress.effect_by, Progress.HoldsOn};

use crate::effect::{Effect, attempt_in, goes_on, record_of, reply_phase, shuts, shuts_other};
use crate::node::Node;
use crate::progress::{Progress, shuts_silently};
use crate::reply::Note;
use dist_core_ends::{Attempt, End, Ends, Phase, Stage, Why};
use dist_core_setup::{
    Setup, ack_frame, challenge_frame, greeting, own_digest, required_of, status_frame,
};
use dist_messages::{Form, MessageView, Status};
use dist_names::{ByteString, Flags, NodeName};
use dist_peers::{EndId, Verdict};
use std::alloc::{AllocError, Global};

// What becomes of an end that a crossing name supersedes.
fn doomed_or_closed(alloc: Global, end: &End) -> Result<End, AllocError>
    ensures { IfOk result (λ e. e ≡ superseded_end (Some end.now)) }
{
    let End::Attempt(attempt) = end else {
        return Ok(End::Closed(Why::Crossed));
    };
    match attempt.phase {
        Phase::Dialing => Ok(End::Attempt(attempt_in(alloc, attempt, Phase::DoomedDialing)?)),
        Phase::AwaitStatus => Ok(End::Attempt(attempt_in(alloc, attempt, Phase::Doomed)?)),
        _ => Ok(End::Closed(Why::Crossed)),
    }
}

// The same for the end of this number.
fn superseded_end(alloc: Global, ends: &Ends, id: EndId) -> Result<End, AllocError>
    ensures { IfOk result (λ e. e ≡ superseded_end (slice_get ends.now id.0)) }
{
    match ends.open_end(id) {
        Ok(end) => doomed_or_closed(alloc, end),
        Err(_) => Ok(End::Closed(Why::Crossed)),
    }
}

// The attempt that a name begins supersedes another end. The name is given once more, for the note.
fn supersedes(
    id: EndId,
    say: ByteString,
    attempt: Attempt,
    peer: NodeName,
    crossed: (EndId, End),
) -> Effect
    ensures { peer ≡ attempt.peer → result ≡ supersedes id say attempt crossed.0 crossed.1 }
{
    let this = End::Attempt(attempt);
    let (x, end) = crossed;
    match end {
        End::Closed(why) => shuts_other(id, say, this, (x, why), note_of_name(peer)),
        doomed => {
            let dooms = Some(x);
            let mut effect = goes_on(id, say, this, Note::NameTaken { peer, dooms });
            effect.other = Some((x, doomed));
            effect
        }
    }
}

// The attempt, waiting for `true` before it sends the challenge.
fn wait_for_true(attempt: Attempt) -> Attempt
    ensures { result ≡ held_back attempt }
{
    Attempt {
        phase: Phase::AwaitTrue,
        challenge: 0,
        ..attempt
    }
}

// What is noted of a name that passed all checks and dooms no end.
fn note_of_name(peer: NodeName) -> Note
    ensures { result ≡ Note.NameTaken peer None }
{
    Note::NameTaken { peer, dooms: None }
}

// What is sent to a name that passed all checks.
fn answer_to_name(
    alloc: Global,
    setup: &Setup,
    attempt: &Attempt,
    verdict: Verdict,
) -> Result<ByteString, AllocError>
    ensures { IfOk result (λ b. b ≡ verdict_text setup.now attempt.now verdict) }
{
    let (form, fresh) = (attempt.form, attempt.challenge);
    match verdict {
        Verdict::Ok | Verdict::Replaces { alive: false, .. } => {
            greeting(alloc, setup, Status::Ok, form, fresh)
        }
        Verdict::OkSimultaneous { .. } => {
            greeting(alloc, setup, Status::OkSimultaneous, form, fresh)
        }
        Verdict::Nok => status_frame(alloc, Status::Nok),
        Verdict::Alive | Verdict::Replaces { alive: true, .. } => {
            status_frame(alloc, Status::Alive)
        }
    }
}

impl Node {
    pub(crate) fn effect_of_verdict(
        &self,
        alloc: Global,
        id: EndId,
        attempt: Attempt,
        verdict: Verdict,
    ) -> Result<Effect, AllocError>
        ensures { IfOk result (λ f. f ≡ name_taken self.now.setup self.now.ends id attempt verdict) }
    {
        let say = answer_to_name(alloc, &self.setup, &attempt, verdict)?;
        let peer = attempt.peer.try_clone(alloc)?;
        match verdict {
            Verdict::Ok => Ok(goes_on(id, say, End::Attempt(attempt), note_of_name(peer))),
            Verdict::OkSimultaneous { drops } => {
                let crossed = superseded_end(alloc, &self.ends, drops)?;
                Ok(supersedes(id, say, attempt, peer, (drops, crossed)))
            }
            Verdict::Nok => Ok(shuts(id, say, Why::Crossed, note_of_name(peer))),
            Verdict::Alive => Ok(goes_on(
                id,
                say,
                End::Attempt(wait_for_true(attempt)),
                note_of_name(peer),
            )),
            Verdict::Replaces { drops, alive } => {
                let this = End::Attempt(if alive {
                    wait_for_true(attempt)
                } else {
                    attempt
                });
                Ok(shuts_other(id, say, this, (drops, Why::Replaced), note_of_name(peer)))
            }
        }
    }
}

// The end awaits the answer to `alive`.
pub fn in_await_true(
    alloc: Global,
    setup: &Setup,
    fresh: u32,
    attempt: &Attempt,
    message: &MessageView,
) -> Result<Progress, AllocError>
    requires { attempt.now.phase ≡ Phase.AwaitTrue }
    ensures effect { (es : List End) (id : EndId) → IfOk result (λ p. effect_by es id attempt.now p
        ≡ in_await_true setup.now id fresh attempt.now (message_of message.now)) }
    ensures holds { IfOk result (HoldsOn attempt.now) }
{
    match message {
        MessageView::Status(Status::True) => {
            let say = challenge_frame(alloc, setup, attempt.form, fresh)?;
            let to = Stage {
                phase: reply_phase(attempt.form),
                challenge: fresh,
                ..attempt.stage()
            };
            Ok(Progress::Goes { say, to })
        }
        MessageView::Status(Status::False) => Ok(shuts_silently(alloc, Why::StatusRefused)),
        _ => Ok(shuts_silently(alloc, Why::Unexpected)),
    }
}

pub fn in_await_complement(
    alloc: Global,
    setup: &Setup,
    attempt: &Attempt,
    message: &MessageView,
) -> Result<Progress, AllocError>
    requires { attempt.now.phase ≡ Phase.AwaitComplement }
    ensures effect { (es : List End) (id : EndId) → IfOk result (λ p. effect_by es id attempt.now p
        ≡ in_await_complement setup.now id attempt.now (message_of message.now)) }
    ensures holds { IfOk result (HoldsOn attempt.now) }
{
    let MessageView::Complement { high, creation } = message else {
        return Ok(shuts_silently(alloc, Why::Unexpected));
    };
    let flags = Flags::of_halves(*high, attempt.flags.low());
    if !flags.has(required_of(setup, Form::New)) {
        return Ok(shuts_silently(alloc, Why::WrongFlags));
    }
    let say = ByteString::new(alloc);
    let to = Stage {
        phase: Phase::AwaitReply,
        challenge: attempt.challenge,
        flags,
        creation: Some(*creation),
    };
    Ok(Progress::Goes { say, to })
}

pub fn in_await_reply(
    alloc: Global,
    setup: &Setup,
    attempt: &Attempt,
    message: &MessageView,
) -> Result<Progress, AllocError>
    requires { attempt.now.phase ≡ Phase.AwaitReply }
    ensures effect { (es : List End) (id : EndId) → IfOk result (λ p. effect_by es id attempt.now p
        ≡ in_await_reply setup.now (entry_in es attempt.now.peer) id attempt.now (message_of message.now)) }
    ensures holds { IfOk result (HoldsOn attempt.now) }
{
    let MessageView::Reply {
        challenge,
        digest: came,
    } = message
    else {
        return Ok(shuts_silently(alloc, Why::Unexpected));
    };
    let own = own_digest(setup, &attempt.peer, attempt.challenge);
    if *came != own {
        return Ok(shuts_silently(alloc, Why::WrongDigest));
    }
    let say = ack_frame(alloc, setup, &attempt.peer, *challenge)?;
    let came = record_of(alloc, setup, attempt, came)?;
    Ok(Progress::Rises { say, came })
}
