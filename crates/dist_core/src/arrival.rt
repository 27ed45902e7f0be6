//! What a frame does to an end that awaits a name.
ghost use Rattle.std.specs.Prelude.{◌≡◌, IfOk, true, Ok, Err, Some, None};
ghost use Rattle.dist_messages.specs.{Reading.read, Views.message_of};
ghost use Rattle.dist_core_ends.specs.declared.known.End.{End};
ghost use Rattle.dist_core_setup.specs.{Rules.is_good, Saying.status_text};
ghost use Rattle.dist_core.specs.{Effects.shuts, Effects.closes, Accepted.in_await_name, Accepted.name_came, Answers.Gives, Step.framed_from};
ghost use Rattle.dist_core.specs.{Step.message_effect};

use crate::effect::{Effect, closes, reply_phase, shuts};
use crate::node::Node;
use crate::reply::Note;
use crate::step_error::StepError;
use dist_core_ends::{Attempt, Why};
use dist_core_setup::{form_of_old, good_name, is_refused, knows_six, required_of, status_frame};
use dist_messages::{Form, MessageView, Side, Status, read_in_place};
use dist_names::{ByteString, Creation, Flags, NodeName};
use dist_peers::EndId;
use std::alloc::{AllocError, Global};

// What a message with a name says beside the name, and in which form it is answered.
#[derive(Clone, Copy)]
struct Introduction {
    form: Form,
    flags: Flags,
    creation: Option<Creation>,
}

impl Node {
    // What a frame does. It stays a call of its own, so that other events don't clear the room that this takes.
    #[inline(never)]
    pub(crate) fn effect_of_first_frame(
        &self,
        alloc: Global,
        id: EndId,
        body: &ByteString,
        fresh: u32,
    ) -> Result<Effect, StepError>
        ensures { Gives result (framed_from self.now id fresh body.now End.Unnamed (Some Side.Dialler)) }
    {
        if self.is_spent() {
            return Err(StepError::Spent);
        }
        self.effect_of_first_body(alloc, id, fresh, body)
            .map_err(|_| StepError::NoMemory)
    }

    fn effect_of_first_body(
        &self,
        alloc: Global,
        id: EndId,
        fresh: u32,
        body: &ByteString,
    ) -> Result<Effect, AllocError>
        ensures { IfOk result (λ f. f ≡ message_effect self.now id fresh End.Unnamed (read Side.Dialler body.now)) }
    {
        match read_in_place(Side::Dialler, body.as_slice()) {
            Ok(message) => self.effect_of_introduction(alloc, id, fresh, &message),
            Err(_) => Ok(closes(alloc, id, Why::Malformed)),
        }
    }

    fn effect_of_introduction(
        &self,
        alloc: Global,
        id: EndId,
        fresh: u32,
        message: &MessageView,
    ) -> Result<Effect, AllocError>
        ensures { IfOk result (λ f. f ≡ in_await_name self.now id fresh (message_of message.now)) }
    {
        match message {
            MessageView::NewName {
                flags,
                creation,
                name,
            } if knows_six(self.setup()) => {
                let came = Introduction {
                    form: Form::New,
                    flags: *flags,
                    creation: Some(*creation),
                };
                self.effect_of_name(alloc, id, fresh, came, *name)
            }
            MessageView::OldName { flags, name } => {
                let flags = Flags(*flags as u64);
                let form = form_of_old(self.setup(), flags);
                let came = Introduction {
                    form,
                    flags,
                    creation: None,
                };
                self.effect_of_name(alloc, id, fresh, came, *name)
            }
            _ => Ok(closes(alloc, id, Why::Unexpected)),
        }
    }

    fn effect_of_name(
        &self,
        alloc: Global,
        id: EndId,
        fresh: u32,
        came: Introduction,
        name: &[u8],
    ) -> Result<Effect, AllocError>
        ensures { IfOk result (λ f. f ≡ name_came self.now id fresh came.form came.flags came.creation name.now) }
    {
        match good_name(alloc, name)? {
            Some(peer) => self.effect_of_good_name(alloc, id, fresh, came, peer),
            None => refuses(alloc, id),
        }
    }

    // The same for bytes in which `good_name` found a name.
    fn effect_of_good_name(
        &self,
        alloc: Global,
        id: EndId,
        fresh: u32,
        came: Introduction,
        peer: NodeName,
    ) -> Result<Effect, AllocError>
        requires { is_good peer ≡ true }
        ensures { IfOk result (λ f. f ≡ name_came self.now id fresh came.form came.flags came.creation peer) }
    {
        let required = required_of(self.setup(), came.form);
        let full = self.is_full_for(&peer);
        if is_refused(self.setup(), required, full, came.flags, &peer) {
            return refuses(alloc, id);
        }
        let attempt = Attempt {
            peer,
            form: came.form,
            phase: reply_phase(came.form),
            challenge: fresh,
            flags: came.flags,
            creation: came.creation,
        };
        let verdict = self.verdict(&attempt.peer, id);
        self.effect_of_verdict(alloc, id, attempt, verdict)
    }
}

fn refuses(alloc: Global, id: EndId) -> Result<Effect, AllocError>
    ensures { IfOk result (λ f. f ≡ shuts id (status_text Status.NotAllowed) Why.Refused Note.Nothing) }
{
    let say = status_frame(alloc, Status::NotAllowed)?;
    Ok(shuts(id, say, Why::Refused, Note::Nothing))
}
