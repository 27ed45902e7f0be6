//! What each message does to a dialled end.
ghost use Rattle.std.specs.Prelude.{◌≡◌, List, IfOk, Ok, Some, None};
ghost use Rattle.dist_peers.specs.declared.entry.EndId.{EndId};
ghost use Rattle.dist_core_ends.specs.{declared.known.End.End, Ends.entry_in};
ghost use Rattle.dist_messages.specs.Views.{message_of};
ghost use Rattle.dist_core_setup.specs.Saying.{reply_text};
ghost use Rattle.dist_core.specs.Progress.{effect_by, HoldsOn};
ghost use Rattle.dist_core.specs.Dialled.{in_await_status, in_doomed, challenge_effect, in_await_challenge, in_await_ack};

use crate::effect::record_of;
use crate::progress::{Progress, moves, shuts_silently};
use dist_core_ends::{Attempt, Phase, Stage, Why};
use dist_core_setup::{
    Setup, knows_six, opens_new, own_digest, reply_frame, required_of, status_frame,
};
use dist_messages::{Form, MessageView, Status};
use dist_names::{ByteString, Creation, Flags};
use std::alloc::{AllocError, Global};

pub fn in_await_status(
    alloc: Global,
    attempt: &Attempt,
    message: &MessageView,
) -> Result<Progress, AllocError>
    requires { attempt.now.phase ≡ Phase.AwaitStatus }
    ensures effect { (es : List End) (id : EndId) → IfOk result (λ p. effect_by es id attempt.now p
        ≡ in_await_status id attempt.now (message_of message.now)) }
    ensures holds { IfOk result (HoldsOn attempt.now) }
{
    match message {
        MessageView::Status(Status::Ok) | MessageView::Status(Status::OkSimultaneous) => {
            let nothing = ByteString::new(alloc);
            Ok(moves(nothing, attempt, Phase::AwaitChallenge))
        }
        MessageView::Status(Status::Alive) => {
            let say = status_frame(alloc, Status::True)?;
            Ok(moves(say, attempt, Phase::AwaitChallenge))
        }
        MessageView::Status(Status::Nok) | MessageView::Status(Status::NotAllowed) => {
            Ok(shuts_silently(alloc, Why::StatusRefused))
        }
        _ => Ok(shuts_silently(alloc, Why::Unexpected)),
    }
}

// The end is superseded, and awaits the status.
pub fn in_doomed(alloc: Global, message: &MessageView) -> Result<Progress, AllocError>
    ensures effect { (es : List End) (id : EndId) (a : Attempt) → IfOk result (λ p. effect_by es id a p ≡ in_doomed id (message_of message.now)) }
    ensures holds { (a : Attempt) → IfOk result (HoldsOn a) }
{
    match message {
        MessageView::Status(Status::Alive) => {
            let say = status_frame(alloc, Status::False)?;
            Ok(Progress::Shuts {
                say,
                why: Why::Crossed,
            })
        }
        MessageView::Status(_) => Ok(shuts_silently(alloc, Why::Crossed)),
        _ => Ok(shuts_silently(alloc, Why::Unexpected)),
    }
}

// What a challenge that is understood says, in which form it is answered, and which flags are required.
#[derive(Clone, Copy)]
struct Challenge<'a> {
    name: &'a [u8],
    form: Form,
    required: Flags,
    flags: Flags,
    challenge: u32,
    creation: Option<Creation>,
}

// Answers a challenge.
fn send_reply(
    alloc: Global,
    setup: &Setup,
    fresh: u32,
    attempt: &Attempt,
    came: Challenge,
) -> Result<Progress, AllocError>
    ensures effect { IfOk result (λ p. p ≡ Progress.Replies (reply_text setup.now came.entry.form attempt.now.peer fresh came.entry.challenge)
        (record { phase = Phase.AwaitAck; challenge = fresh; flags = came.entry.flags; creation = came.entry.creation })) }
{
    let say = reply_frame(
        alloc,
        setup,
        came.form,
        &attempt.peer,
        fresh,
        came.challenge,
    )?;
    let to = Stage {
        phase: Phase::AwaitAck,
        challenge: fresh,
        flags: came.flags,
        creation: came.creation,
    };
    Ok(Progress::Replies { say, to })
}

// Answers a challenge, where it is of the name that was dialled and has the flags that are required.
fn answer_challenge(
    alloc: Global,
    setup: &Setup,
    fresh: u32,
    attempt: &Attempt,
    came: Challenge,
) -> Result<Progress, AllocError>
    requires { attempt.now.phase ≡ Phase.AwaitChallenge }
    ensures effect { (es : List End) (id : EndId) → IfOk result (λ p. effect_by es id attempt.now p ≡ challenge_effect setup.now id fresh attempt.now
        came.entry.form came.entry.required.0 came.entry.flags came.entry.challenge came.entry.creation came.entry.name.now) }
    ensures holds { IfOk result (HoldsOn attempt.now) }
{
    if !attempt.peer.has_bytes(came.name) {
        return Ok(shuts_silently(alloc, Why::WrongName));
    }
    if !came.flags.has(came.required) {
        return Ok(shuts_silently(alloc, Why::WrongFlags));
    }
    send_reply(alloc, setup, fresh, attempt, came)
}

pub fn in_await_challenge(
    alloc: Global,
    setup: &Setup,
    fresh: u32,
    attempt: &Attempt,
    message: &MessageView,
) -> Result<Progress, AllocError>
    requires { attempt.now.phase ≡ Phase.AwaitChallenge }
    ensures effect { (es : List End) (id : EndId) → IfOk result (λ p. effect_by es id attempt.now p
        ≡ in_await_challenge setup.now id fresh attempt.now (message_of message.now)) }
    ensures holds { IfOk result (HoldsOn attempt.now) }
{
    match message {
        MessageView::NewChallenge {
            flags,
            challenge,
            creation,
            name,
        } if knows_six(setup) => {
            let came = Challenge {
                name: *name,
                form: attempt.form,
                required: required_of(setup, Form::New),
                flags: *flags,
                challenge: *challenge,
                creation: Some(*creation),
            };
            answer_challenge(alloc, setup, fresh, attempt, came)
        }
        MessageView::OldChallenge {
            flags,
            challenge,
            name,
        } if !opens_new(setup, attempt.form) => {
            let came = Challenge {
                name: *name,
                form: Form::Five,
                required: required_of(setup, Form::Five),
                flags: Flags(*flags as u64),
                challenge: *challenge,
                creation: None,
            };
            answer_challenge(alloc, setup, fresh, attempt, came)
        }
        _ => Ok(shuts_silently(alloc, Why::Unexpected)),
    }
}

pub fn in_await_ack(
    alloc: Global,
    setup: &Setup,
    attempt: &Attempt,
    message: &MessageView,
) -> Result<Progress, AllocError>
    requires { attempt.now.phase ≡ Phase.AwaitAck }
    ensures effect { (es : List End) (id : EndId) → IfOk result (λ p. effect_by es id attempt.now p
        ≡ in_await_ack setup.now (entry_in es attempt.now.peer) id attempt.now (message_of message.now)) }
    ensures holds { IfOk result (HoldsOn attempt.now) }
{
    let MessageView::Ack { digest: came } = message else {
        return Ok(shuts_silently(alloc, Why::Unexpected));
    };
    let own = own_digest(setup, &attempt.peer, attempt.challenge);
    if *came != own {
        return Ok(shuts_silently(alloc, Why::WrongDigest));
    }
    let say = ByteString::new(alloc);
    let came = record_of(alloc, setup, attempt, came)?;
    Ok(Progress::Rises { say, came })
}
