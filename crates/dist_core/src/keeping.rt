//! Steps whose reply is kept before they are made: so that a step that was made needs no further memory for its reply.
ghost use Rattle.std.specs.Prelude.{◌≡◌, ◌≢◌, ℕ, ◌≤◌, ◌+◌, IfOk, IfErr, OnOk, OnErr, Err, Some, slice_get};
ghost use Rattle.dist_messages.specs.declared.message.Side.TheVariants.{Dialler};
ghost use Rattle.dist_core_ends.specs.{declared.known.Attempt.Attempt, Ends.entry_in};
ghost use Rattle.dist_core.specs.Step.{at_end, came_in, dial_effect, framed_from, opening_effect, sender_to, step, step_result, tick_effect};
ghost use Rattle.dist_core.specs.{declared.reply.Reply.Reply, Clauses.loss_reply, Doing.CanDo, Keeping.KeepsDone, Keeping.KeepsStep, Keeping.RisesWith};
ghost use Rattle.dist_core.specs.{Keeping.with_rise, Node.ends_after, Node.limits_of, Progress.CanProgress, Progress.effect_by, Progress.node_by};

use crate::answering::{reply_of_end, reply_of_rise};
use crate::effect::Effect;
use crate::event::Event;
use crate::finding::open_end;
use crate::node::{Node, reply_that_says};
use crate::progress::Progress;
use crate::reply::{Note, Reply};
use crate::step_error::StepError;
use dist_core_ends::{Attempt, End, Ends, Why};
use dist_messages::Opening;
use dist_names::{ByteString, NodeName};
use dist_peers::{EndId, replaced_end};
use std::alloc::{AllocError, Global};

/// Where the reply of a step is put before the step is made: for a caller that shares the reply, as in a line of a history.
pub trait Keeper {
    ghost use Rattle.std.specs.Prelude.{◌≡◌, IfOk, IsOk};
    ghost use Rattle.dist_core.specs.declared.reply.Reply.{Reply};

    /// What a reply is kept as.
    type Kept: Drop;

    ghost keeps: { Self → Reply → Self.Kept → Type 0 };

    /// Which replies can be kept without memory.
    ghost is_ready_for: { Self → Reply → Type 0 };

    /// Keeps a reply. Where memory runs out, the step is not made.
    fn keep(&self, alloc: Global, reply: Reply) -> Result<Self::Kept, AllocError>
        ensures kept { IfOk result (keeps self.now reply) }
        ensures ready { is_ready_for self.now reply → IsOk result };

    /// The reply that was kept.
    fn reply<'k>(&self, kept: &'k Self::Kept) -> &'k Reply
        ensures { (reply : Reply) → keeps self.now reply kept.now → result.now ≡ reply };
}

// Returns the reply itself: for a step whose reply nobody else keeps.
#[derive(Clone, Copy)]
pub struct Returned;

impl Keeper for Returned {
    ghost use Rattle.std.specs.Prelude.{◌≡◌};

    type Kept = Reply;

    ghost keeps = { λ s reply kept. kept ≡ reply };

    ghost is_ready_for = { λ s reply. Unit {0} };

    #[inline(always)]
    fn keep(&self, _alloc: Global, reply: Reply) -> Result<Reply, AllocError> {
        Ok(reply)
    }

    #[inline(always)]
    fn reply<'k>(&self, kept: &'k Reply) -> &'k Reply {
        kept
    }
}

// Keeps the reply of a step at an attempt, and then does what becomes of the attempt.
#[inline(always)]
fn put_kept_progress<K: Keeper>(
    ends: &mut Ends,
    alloc: Global,
    keeper: &K,
    id: EndId,
    progress: Progress,
) -> Result<K::Kept, AllocError>
    requires { CanProgress ends.old id progress }
    ensures kept { IfOk result (λ k. (a : Attempt) → slice_get ends.old id.0 ≡ Some (End.Attempt a)
        → K.keeps keeper.now (let f = effect_by ends.old id a progress in f.reply) k) }
    ensures ends { OnOk result ((a : Attempt) → slice_get ends.old id.0 ≡ Some (End.Attempt a)
        → ends.new ≡ ends_after ends.old (effect_by ends.old id a progress)) }
    ensures err { OnErr result (ends.new ≡ ends.old) }
{
    match progress {
        Progress::Goes { say, to } => {
            let kept = keeper.keep(alloc, reply_that_says(id, say))?;
            ends.advance(id, to);
            Ok(kept)
        }
        Progress::Replies { say, to } => {
            let mut reply = reply_that_says(id, say);
            reply.note = Note::ReplySaid;
            let kept = keeper.keep(alloc, reply)?;
            ends.advance(id, to);
            Ok(kept)
        }
        Progress::Rises { say, came } => {
            let replaced = replaced_end(ends.entry_of(&came.peer));
            let kept = keeper.keep(alloc, reply_of_rise(id, say, came, replaced))?;
            rise(ends, keeper.reply(&kept));
            Ok(kept)
        }
        Progress::Shuts { say, why } => {
            let kept = keeper.keep(alloc, reply_of_end(id, say, why))?;
            ends.close(id, why);
            Ok(kept)
        }
    }
}

// The attempt of the reply's end comes up with the record of the reply.
fn rise(ends: &mut Ends, reply: &Reply)
    requires { RisesWith ends.old reply.now.end_ reply.now.up }
    ensures { ends.new ≡ with_rise ends.old reply.now.end_ reply.now.up }
{
    if let Some(came) = &reply.up {
        let _replaced = ends.rise(reply.end_, came);
    }
}

impl Node {
    /// Makes a step whose reply is kept before it is made. Where there is no memory to keep it, the step is refused as `NoMemory`,
    /// and changes nothing. [`Node::step`] is this step with a keeper that returns the reply.
    #[inline(always)]
    pub fn step_kept<K: Keeper>(
        &mut self,
        alloc: Global,
        keeper: &K,
        event: &Event,
        fresh: u32,
    ) -> Result<K::Kept, StepError>
        // What was kept is the reply of the definition's step, and the node afterwards is the definition's; or the refusal is.
        ensures step { KeepsStep (K.keeps keeper.now) result (step self.old event.now fresh) self.old self.new }

        // A loss takes no memory, except perhaps for its reply.
        ensures loss { (x : EndId) (w : Why) → event.now ≡ Event.Lost x w → K.is_ready_for keeper.now (loss_reply x w) → result ≢ Err StepError.NoMemory }
    {
        match event {
            Event::Dial { peer, opening } => self.keep_dial(alloc, keeper, peer, *opening),
            Event::Incoming { link } => self.keep_incoming(alloc, keeper, *link),
            Event::Opened { end_: id, link } => self.keep_opened(alloc, keeper, *id, *link),
            Event::Frame { end_: id, body } => self.keep_frame(alloc, keeper, *id, body, fresh),
            Event::Lost { end_: id, why } => self.keep_loss(alloc, keeper, *id, *why),
            Event::Tick { end_: id } => self.keep_tick(alloc, keeper, *id),
        }
    }

    fn keep_dial<K: Keeper>(
        &mut self,
        alloc: Global,
        keeper: &K,
        peer: &NodeName,
        opening: Opening,
    ) -> Result<K::Kept, StepError>
        ensures { KeepsStep (K.keeps keeper.now) result (step_result self.old (Event.Dial peer.now opening)
            (dial_effect self.old peer.now opening (entry_in self.old.ends peer.now))) self.old self.new }
    {
        // Its clause says what holds of every node.
        let _ = self.counted_steps();
        let effect = self.effect_of_dial(alloc, peer, opening)?;
        self.keep_effect(alloc, keeper, effect)
    }

    fn keep_incoming<K: Keeper>(
        &mut self,
        alloc: Global,
        keeper: &K,
        _link: u64,
    ) -> Result<K::Kept, StepError>
        ensures { KeepsStep (K.keeps keeper.now) result (step_result self.old (Event.Incoming _link) (came_in self.old)) self.old self.new }
    {
        // Its clause says what holds of every node.
        let _ = self.counted_steps();
        let effect = self.effect_of_incoming(alloc)?;
        self.keep_effect(alloc, keeper, effect)
    }

    // The connection of a dialled end is there.
    fn keep_opened<K: Keeper>(
        &mut self,
        alloc: Global,
        keeper: &K,
        id: EndId,
        _link: u64,
    ) -> Result<K::Kept, StepError>
        ensures { KeepsStep (K.keeps keeper.now) result (step_result self.old (Event.Opened id _link)
            (at_end (slice_get self.old.ends id.0) (opening_effect self.old id))) self.old self.new }
    {
        // Its clause says what holds of every node.
        let _ = self.counted_steps();
        let End::Attempt(attempt) = open_end(&self.ends, id)? else {
            return Err(StepError::WrongPhase);
        };
        let progress = self.progress_of_opened(alloc, attempt)?;
        self.keep_progress(alloc, keeper, id, progress)
    }

    // A loss, which closes its end and sends nothing.
    #[tactic(auto, using(crate::proofs::Kept::given))]
    fn keep_loss<K: Keeper>(
        &mut self,
        alloc: Global,
        keeper: &K,
        id: EndId,
        why: Why,
    ) -> Result<K::Kept, StepError>
        ensures step { (fresh : ℕ) → KeepsStep (K.keeps keeper.now) result (step self.old (Event.Lost id why) fresh) self.old self.new }
        ensures loss { K.is_ready_for keeper.now (loss_reply id why) → result ≢ Err StepError.NoMemory }
    {
        let reply = self.reply_to_loss(alloc, id, why)?;
        let Ok(kept) = keeper.keep(alloc, reply) else {
            return Err(StepError::NoMemory);
        };
        self.lose(id, why)?;
        Ok(kept)
    }

    // A tick, with the packet that is sent.
    fn keep_tick<K: Keeper>(
        &mut self,
        alloc: Global,
        keeper: &K,
        id: EndId,
    ) -> Result<K::Kept, StepError>
        ensures { KeepsStep (K.keeps keeper.now) result (step_result self.old (Event.Tick id)
            (at_end (slice_get self.old.ends id.0) (tick_effect self.old id))) self.old self.new }
    {
        let reply = self.reply_to_tick(alloc, id)?;
        let Ok(kept) = keeper.keep(alloc, reply) else {
            return Err(StepError::NoMemory);
        };
        self.steps += 1;
        Ok(kept)
    }

    fn keep_frame<K: Keeper>(
        &mut self,
        alloc: Global,
        keeper: &K,
        id: EndId,
        body: &ByteString,
        fresh: u32,
    ) -> Result<K::Kept, StepError>
        ensures { KeepsStep (K.keeps keeper.now) result (step_result self.old (Event.Frame id body.now)
            (at_end (slice_get self.old.ends id.0) (λ e. framed_from self.old id fresh body.now e (sender_to e)))) self.old self.new }
    {
        // Its clause says what holds of every node.
        let _ = self.counted_steps();
        let end = open_end(&self.ends, id)?;
        match end {
            End::Attempt(attempt) => {
                let progress = self.progress_of_frame(alloc, fresh, body, attempt)?;
                self.keep_progress(alloc, keeper, id, progress)
            }
            End::Unnamed => self.keep_first_frame(alloc, keeper, id, body, fresh),
            _ => Err(StepError::WrongPhase),
        }
    }

    // A step at an attempt, where it is known what becomes of the attempt.
    #[inline(always)]
    fn keep_progress<K: Keeper>(
        &mut self,
        alloc: Global,
        keeper: &K,
        id: EndId,
        progress: Progress,
    ) -> Result<K::Kept, StepError>
        requires can { CanProgress self.old.ends id progress }
        requires left { self.old.steps + 1 ≤ (let l = limits_of self.old in l.steps) }
        ensures kept { IfOk result (λ k. (a : Attempt) → slice_get self.old.ends id.0 ≡ Some (End.Attempt a)
            → K.keeps keeper.now (let f = effect_by self.old.ends id a progress in f.reply) k) }
        ensures node { OnOk result ((a : Attempt) → slice_get self.old.ends id.0 ≡ Some (End.Attempt a) → self.new ≡ node_by self.old id a progress) }
        ensures err { IfErr result (λ e. (e ≡ StepError.NoMemory) × (self.new ≡ self.old)) }
    {
        // Its clause says that the steps can be counted.
        let _ = self.most_steps();
        let Ok(kept) = put_kept_progress(&mut self.ends, alloc, keeper, id, progress) else {
            return Err(StepError::NoMemory);
        };
        self.steps += 1;
        Ok(kept)
    }

    // A frame came on an end that awaits a name.
    #[inline(never)]
    fn keep_first_frame<K: Keeper>(
        &mut self,
        alloc: Global,
        keeper: &K,
        id: EndId,
        body: &ByteString,
        fresh: u32,
    ) -> Result<K::Kept, StepError>
        requires { slice_get self.old.ends id.0 ≡ Some End.Unnamed }
        ensures { KeepsStep (K.keeps keeper.now) result (step_result self.old (Event.Frame id body.now)
            (framed_from self.old id fresh body.now End.Unnamed (Some Dialler))) self.old self.new }
    {
        // Its clause says what holds of every node.
        let _ = self.counted_steps();
        let effect = self.effect_of_first_frame(alloc, id, body, fresh)?;
        self.keep_effect(alloc, keeper, effect)
    }

    // Does an effect that the node can have.
    #[inline(always)]
    fn keep_effect<K: Keeper>(
        &mut self,
        alloc: Global,
        keeper: &K,
        effect: Effect,
    ) -> Result<K::Kept, StepError>
        requires { CanDo self.old effect }
        ensures { KeepsDone (K.keeps keeper.now) effect result self.old self.new }
    {
        let Effect { reply, this, other } = effect;
        let Ok(kept) = keeper.keep(alloc, reply) else {
            return Err(StepError::NoMemory);
        };
        self.change_ends(keeper.reply(&kept), this, other)?;
        Ok(kept)
    }
}
