//! What a step does, before it is done.
ghost use Rattle.std.specs.Prelude.{◌≡◌, IfOk, Ok, Some, None};
ghost use Rattle.dist_core.specs.Effects.{form_of, reply_phase, goes_on, shuts, shuts_other, closes, record_of};
ghost use Rattle.dist_core_ends.specs.Ends.{kind_in};

use crate::node::reply_that_says;
use crate::reply::{Note, Reply};
use dist_core_ends::{Attempt, End, Kind, Phase, UpRecord, Why};
use dist_core_setup::{Setup, announced_by};
use dist_messages::{Form, Opening};
use dist_names::ByteString;
use dist_peers::EndId;
use std::alloc::{AllocError, Global};

/// What a step does. It is used in contracts: no public call takes or returns it.
#[derive(Drop)]
pub struct Effect {
    /// What is returned.
    pub reply: Reply,
    /// What the event's end is afterwards.
    pub this: End,
    /// Another end that changes, and what it is afterwards.
    pub other: Option<(EndId, End)>,
}

impl Effect {
    // The reply, where the step is not made.
    pub fn into_reply(self) -> Reply
        ensures { result ≡ self.reply }
    {
        let Effect { reply, .. } = self;
        reply
    }
}

pub fn goes_on(id: EndId, say: ByteString, this: End, note: Note) -> Effect
    ensures { result ≡ goes_on id say this note }
{
    let mut reply = reply_that_says(id, say);
    reply.note = note;
    Effect {
        reply,
        this,
        other: None,
    }
}

pub fn shuts(id: EndId, say: ByteString, why: Why, note: Note) -> Effect
    ensures { result ≡ shuts id say why note }
{
    let mut effect = goes_on(id, say, End::Closed(why), note);
    effect.reply.closed = Some((id, why));
    effect
}

pub fn closes(alloc: Global, id: EndId, why: Why) -> Effect
    ensures { result ≡ closes id why }
{
    shuts(id, ByteString::new(alloc), why, Note::Nothing)
}

// The end becomes this, and another end is closed for this cause.
pub fn shuts_other(id: EndId, say: ByteString, this: End, other: (EndId, Why), note: Note) -> Effect
    ensures { result ≡ shuts_other id say this other.0 other.1 note }
{
    let mut effect = goes_on(id, say, this, note);
    effect.reply.closed = Some(other);
    effect.other = Some((other.0, End::Closed(other.1)));
    effect
}

// ---- attempts

pub fn attempt_in(alloc: Global, attempt: &Attempt, phase: Phase) -> Result<Attempt, AllocError>
    ensures { IfOk result (λ a. a ≡ record attempt.now { phase = phase }) }
{
    let copy = attempt.try_clone(alloc)?;
    Ok(Attempt { phase, ..copy })
}

pub fn reply_phase(form: Form) -> Phase
    ensures is { result ≡ reply_phase form }
    ensures kind { kind_in (reply_phase form) ≡ Some Kind.In }
{
    match form {
        Form::New | Form::Five => Phase::AwaitReply,
        Form::Old => Phase::AwaitComplement,
    }
}

// The form of a handshake that is asked to open in this way.
pub fn form_of(opening: Opening) -> Form
    ensures { result ≡ form_of opening }
{
    match opening {
        Opening::New => Form::New,
        Opening::Old => Form::Old,
    }
}

// What is kept of an end that comes up.
pub fn record_of(
    alloc: Global,
    setup: &Setup,
    attempt: &Attempt,
    digest_received: &[u8; 16],
) -> Result<UpRecord, AllocError>
    ensures { IfOk result (λ r. r ≡ record_of setup.now attempt.now digest_received.now) }
{
    Ok(UpRecord {
        peer: attempt.peer.try_clone(alloc)?,
        common: announced_by(setup).common(attempt.flags),
        creation: attempt.creation,
        challenge: attempt.challenge,
        digest_received: *digest_received,
    })
}
