//! The reply that a step would have, without making the step.
ghost use Rattle.std.specs.Prelude.{◌≡◌, ◌≢◌, ℕ, ◌+◌, ◌^◌, ◌<◌, IfOk, IfErr, OnOk, Ok, Err, IsTrue, Some, None, slice_get};
ghost use Rattle.std.specs.Option.{option_map};
ghost use Rattle.dist_core_ends.specs.{declared.known.Attempt.Attempt, Ends.entry_in};
ghost use Rattle.dist_core.specs.Step.{step, step_result, at_end, came_in, dial_effect, framed_from, opening_effect, sender_to, tick_effect};
ghost use Rattle.dist_core.specs.{Answers.GivesReply, Answers.Refuses, Clauses.loss_reply, Doing.TakesTick, Losses.is_loss, Progress.effect_by};

use crate::event::Event;
use crate::finding::open_end;
use crate::node::{Node, reply_that_says};
use crate::progress::Progress;
use crate::reply::{Note, Reply};
use crate::step_error::StepError;
use dist_core_ends::{End, Ends, UpRecord, Why};
use dist_frames::tick;
use dist_messages::Opening;
use dist_names::{ByteString, NodeName};
use dist_peers::{EndId, replaced_end};
use std::alloc::Global;

// The reply of a step that brings its end up.
pub fn reply_of_rise(id: EndId, say: ByteString, came: UpRecord, replaced: Option<EndId>) -> Reply
    ensures { result ≡ record { end_ = id; say = say; closed = option_map (λ x. (x, Why.Replaced)) replaced; up = Some came; note = Note.Nothing } }
{
    let mut reply = reply_that_says(id, say);
    reply.up = Some(came);
    if let Some(x) = replaced {
        reply.closed = Some((x, Why::Replaced));
    }
    reply
}

// The reply of a step that closes its end.
pub fn reply_of_end(id: EndId, say: ByteString, why: Why) -> Reply
    ensures { result ≡ record { end_ = id; say = say; closed = Some (id, why); up = None; note = Note.Nothing } }
{
    let mut reply = reply_that_says(id, say);
    reply.closed = Some((id, why));
    reply
}

// The reply of a step whose progress of its attempt is known.
fn reply_of_progress(ends: &Ends, id: EndId, progress: Progress) -> Reply
    ensures { (a : Attempt) → let f = effect_by ends.now id a progress in result ≡ f.reply }
{
    match progress {
        Progress::Goes { say, to: _ } => reply_that_says(id, say),
        Progress::Replies { say, to: _ } => {
            let mut reply = reply_that_says(id, say);
            reply.note = Note::ReplySaid;
            reply
        }
        Progress::Rises { say, came } => {
            let replaced = replaced_end(ends.entry_of(&came.peer));
            reply_of_rise(id, say, came, replaced)
        }
        Progress::Shuts { say, why } => reply_of_end(id, say, why),
    }
}

impl Node {
    // The reply or the refusal, by the kind of event.
    pub(crate) fn answer_by_effect(
        &self,
        alloc: Global,
        event: &Event,
        fresh: u32,
    ) -> Result<Reply, StepError>
        ensures answer { GivesReply result (step self.now event.now fresh) }
        ensures loss { IsTrue (is_loss event.now) → result ≢ Err StepError.NoMemory }
    {
        match event {
            Event::Dial { peer, opening } => self.answer_dial(alloc, peer, *opening),
            Event::Incoming { link } => self.answer_incoming(alloc, *link),
            Event::Opened { end_: id, link } => self.answer_opened(alloc, *id, *link),
            Event::Frame { end_: id, body } => self.answer_frame(alloc, *id, body, fresh),
            Event::Lost { end_: id, why } => self.reply_to_loss(alloc, *id, *why),
            Event::Tick { end_: id } => self.answer_tick(alloc, *id),
        }
    }

    fn answer_dial(
        &self,
        alloc: Global,
        peer: &NodeName,
        opening: Opening,
    ) -> Result<Reply, StepError>
        ensures { GivesReply result (step_result self.now (Event.Dial peer.now opening)
            (dial_effect self.now peer.now opening (entry_in self.now.ends peer.now))) }
    {
        let effect = self.effect_of_dial(alloc, peer, opening)?;
        Ok(effect.into_reply())
    }

    fn answer_incoming(&self, alloc: Global, _link: u64) -> Result<Reply, StepError>
        ensures { GivesReply result (step_result self.now (Event.Incoming _link) (came_in self.now)) }
    {
        let effect = self.effect_of_incoming(alloc)?;
        Ok(effect.into_reply())
    }

    fn answer_opened(&self, alloc: Global, id: EndId, _link: u64) -> Result<Reply, StepError>
        ensures { GivesReply result (step_result self.now (Event.Opened id _link)
            (at_end (slice_get self.now.ends id.0) (opening_effect self.now id))) }
    {
        let End::Attempt(attempt) = open_end(&self.ends, id)? else {
            return Err(StepError::WrongPhase);
        };
        let progress = self.progress_of_opened(alloc, attempt)?;
        Ok(reply_of_progress(&self.ends, id, progress))
    }

    fn answer_frame(
        &self,
        alloc: Global,
        id: EndId,
        body: &ByteString,
        fresh: u32,
    ) -> Result<Reply, StepError>
        ensures { GivesReply result (step_result self.now (Event.Frame id body.now)
            (at_end (slice_get self.now.ends id.0) (λ e. framed_from self.now id fresh body.now e (sender_to e)))) }
    {
        let end = open_end(&self.ends, id)?;
        match end {
            End::Attempt(attempt) => {
                let progress = self.progress_of_frame(alloc, fresh, body, attempt)?;
                Ok(reply_of_progress(&self.ends, id, progress))
            }
            End::Unnamed => {
                let effect = self.effect_of_first_frame(alloc, id, body, fresh)?;
                Ok(effect.into_reply())
            }
            _ => Err(StepError::WrongPhase),
        }
    }

    fn answer_tick(&self, alloc: Global, id: EndId) -> Result<Reply, StepError>
        ensures { GivesReply result (step_result self.now (Event.Tick id) (at_end (slice_get self.now.ends id.0) (tick_effect self.now id))) }
    {
        self.reply_to_tick(alloc, id)
    }

    // The reply to a loss. It takes no memory.
    #[tactic(auto, unfolding(crate::specs::Step::effect_of))]
    pub(crate) fn reply_to_loss(
        &self,
        alloc: Global,
        id: EndId,
        why: Why,
    ) -> Result<Reply, StepError>
        ensures answer { (fresh : ℕ) → GivesReply result (step self.now (Event.Lost id why) fresh) }
        ensures is { IfOk result (λ r. r ≡ loss_reply id why) }
        ensures loss { result ≢ Err StepError.NoMemory }
    {
        let _end = open_end(&self.ends, id)?;
        Ok(reply_of_end(id, ByteString::new(alloc), why))
    }

    // The reply to a tick, where the end takes one.
    #[tactic(auto, using(crate::proofs::Ticks::ticks))]
    pub(crate) fn reply_to_tick(&self, alloc: Global, id: EndId) -> Result<Reply, StepError>
        ensures ok { IfOk result (λ r. step_result self.now (Event.Tick id) (at_end (slice_get self.now.ends id.0) (tick_effect self.now id))
            ≡ Ok (r, record { setup = self.now.setup; steps = self.now.steps + 1; ends = self.now.ends })) }
        ensures taken { OnOk result (TakesTick self.now id) }
        ensures left { OnOk result (self.now.steps + 1 < 2 ^ 64) }
        ensures err { IfErr result (λ e. Refuses e (step_result self.now (Event.Tick id) (at_end (slice_get self.now.ends id.0) (tick_effect self.now id)))) }
    {
        self.check_tick(id)?;
        let Ok(say) = ByteString::from_slice(alloc, &tick()) else {
            return Err(StepError::NoMemory);
        };
        Ok(reply_that_says(id, say))
    }
}
