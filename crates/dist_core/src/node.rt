//! A node, and its steps.
ghost use Rattle.std.specs.Prelude.{◌≡◌, ◌≢◌, ℕ, ◌≤◌, ◌<◌, ◌+◌, ◌^◌, ◌||◌, [], length, option_copied, slice_get, count_by};
ghost use Rattle.std.specs.Prelude.{IfOk, IfErr, IsTrue, IsOk, OnOk, OnErr, true, false, Ok, Err, Some, None};
ghost use Rattle.std.specs.Option.{option_map};
ghost use Rattle.std.specs.FinMap as map;
ghost use Rattle.dist_peers.specs.Table.{up_behind};
ghost use Rattle.dist_core_ends.specs.Ends.{AreLegal, Finds, FindsUp, entry_in, table_of, is_open, is_dialing};
ghost use Rattle.dist_core_ends.specs.Ends.{oldest_pending, oldest_unnamed, record_in, up_from, up_pair, up_ids, still_of, awaited_of};
ghost use Rattle.dist_core_ends.specs.Forgetting.{without_causes_below};
ghost use Rattle.dist_core.specs.Node.{NodeState, ends_after, is_crowded, is_full_for, is_given_out, is_spent, limits_of, new_id};
ghost use Rattle.dist_core.specs.Clauses.{ClosesOnReply, end_of, loss_reply, silent_reply, tick_reply};
ghost use Rattle.dist_core.specs.{Doing.TakesTick, Losses.IsGone, Losses.IsSilent, Losses.is_loss, Fitting.FitsNodeTable, Accepted.verdict_in};
ghost use Rattle.dist_core.specs.{Step.effect_of, Step.step, Step.at_end, Step.tick_effect, Answers.IsStep, Answers.GivesReply, Answers.Refuses};

use crate::event::Event;
use crate::finding::open_end;
use crate::keeping::Returned;
use crate::reply::{Note, Reply};
use crate::step_error::StepError;
use dist_core_ends::{Absent, Awaited, End, Ends, Still, UpRecord, Why};
use dist_core_setup::Setup;
use dist_frames::tick;
use dist_names::{ByteString, Creation, NodeName};
use dist_peers::{EndId, Entry, Verdict};
use std::alloc::Global;
use std::marker::Model;

/// A node: what it was set up with, and all its ends.
#[derive(Drop)]
pub struct Node {
    pub(crate) setup: Setup,
    pub(crate) ends: Ends,
    /// How many steps were made that reported no loss.
    pub(crate) steps: u64,
}

impl Model for Node {
    ghost use Rattle.dist_core.specs.Node.{NodeState, IsKept};

    ghost Value = { NodeState };

    ghost view = { λ n. record { setup = n.setup; steps = n.steps; ends = n.ends } };

    ghost invariant = { λ n. IsKept n.setup.limits n.ends n.steps };
}

impl Node {
    /// A node without ends. It takes no memory.
    pub fn new(alloc: Global, setup: Setup) -> Node
        ensures { result ≡ record { setup = setup; steps = 0; ends = [] } }
    {
        Node {
            setup,
            ends: Ends::new(alloc),
            steps: 0,
        }
    }

    /// What it is set up with. No step changes it.
    pub fn setup(&self) -> &Setup
        ensures { result.now ≡ self.now.setup }
    {
        &self.setup
    }

    /// How an end stands.
    pub fn still(&self, id: EndId) -> Still
        ensures { result ≡ still_of (slice_get self.now.ends id.0) }
    {
        self.ends.still(id)
    }

    /// What an end awaits, where it is open: `Nothing` for one that is up. `None` for a closed end, and for a number that was
    /// never given out. A caller whose connection ends asks this before it reports the loss.
    pub fn awaits(&self, id: EndId) -> Option<Awaited>
        ensures { result ≡ awaited_of (slice_get self.now.ends id.0) }
    {
        self.ends.awaits(id)
    }

    /// Whether the end was dialled and awaits its connection, also where it was superseded meanwhile: then it takes `Opened`.
    pub fn is_dialing(&self, id: EndId) -> bool
        ensures { result ≡ is_dialing (slice_get self.now.ends id.0) }
    {
        self.ends.is_dialing(id)
    }

    /// How many ends are open.
    pub fn open_ends(&self) -> usize
        ensures count { result ≡ count_by is_open self.now.ends }
        ensures legal { AreLegal self.now.ends }
    {
        self.ends.open_ends()
    }

    /// The node's own name.
    pub fn name(&self) -> &NodeName
        ensures { result.now ≡ self.now.setup.name }
    {
        &self.setup.name
    }

    /// The number of this incarnation.
    pub fn creation(&self) -> Creation
        ensures { result ≡ self.now.setup.creation }
    {
        self.setup.creation
    }

    /// The entry of a peer, where the peer isn't idle.
    pub fn entry_of(&self, peer: &NodeName) -> Option<Entry>
        ensures { result ≡ entry_in self.now.ends peer.now }
    {
        self.ends.entry_of(peer)
    }

    /// The entry at this place, in the order of the peers' names.
    pub fn entry_at(&self, i: usize) -> Option<(&NodeName, Entry)>
        ensures { option_map (λ r. (r.0.now, r.1)) result ≡ slice_get (map.entries (table_of self.now.ends)) i }
    {
        self.ends.entry_at(i)
    }

    /// How many ends are up.
    pub fn ups(&self) -> usize
        ensures { result ≡ length (up_ids (map.entries (table_of self.now.ends))) }
    {
        self.ends.ups()
    }

    /// The up end at this place, in the order of the peers' names.
    pub fn up_at(&self, i: usize) -> Option<(EndId, &UpRecord)>
        ensures { option_map (λ r. (r.0, r.1.now)) result ≡ up_from self.now.ends (slice_get (up_ids (map.entries (table_of self.now.ends))) i) }
    {
        self.ends.up_at(i)
    }

    /// The first up end of the peers whose names come after this one, in their order; of all peers where there is no name. Called
    /// again with the name in the record that it found, it goes through all of them: each call searches the entries once.
    pub fn up_behind(&self, name: Option<&NodeName>) -> Option<(EndId, &UpRecord)>
        ensures { option_map (λ r. (r.0, r.1.now)) result
            ≡ up_from self.now.ends (up_behind (option_copied name.entry) (map.entries (table_of self.now.ends))) }
    {
        self.ends.up_behind(name)
    }

    /// The record of an end that is up.
    pub fn record_of(&self, id: EndId) -> Option<&UpRecord>
        ensures { option_map (λ r. (id, r.now)) result ≡ record_in id (slice_get self.now.ends id.0) }
    {
        self.ends.record_of(id)
    }

    /// The up end whose peer has this name, and its record. There is at most one.
    pub fn up_with(&self, peer: &NodeName) -> Option<(EndId, &UpRecord)>
        ensures found { FindsUp self.now.ends peer.now (option_map (λ r. (r.0, r.1.now)) result) }
        ensures only { (i : ℕ) (kept : UpRecord) → slice_get self.now.ends i ≡ Some (End.Up kept) → kept.peer ≡ peer.now
            → option_map (λ r. (r.0, r.1.now)) result ≡ up_pair i kept }
    {
        self.ends.up_with(peer)
    }

    /// How many peers have an entry.
    pub fn entries(&self) -> usize
        ensures { result ≡ map.len (table_of self.now.ends) }
    {
        self.ends.entries()
    }

    /// The end of this number, where it is open, or why there is none. Ask this for what no reply says: which peer an end holds
    /// before it is up, and how far its handshake has come.
    pub fn open_end(&self, id: EndId) -> Result<&End, Absent>
        ensures { Finds result (slice_get self.now.ends id.0) }
    {
        self.ends.open_end(id)
    }

    /// The end that has been open and not up for the longest: it has the lowest number, since numbers are given out in order. A
    /// caller that limits how long handshakes take, or how many of them go on at once, gives up this end first: it closes the
    /// connection and reports [`Event::Lost`].
    ///
    /// This is not a step, and no other call sees that it was made. It takes `&mut self` to note how far it has looked, so that all
    /// calls together look at each number once.
    pub fn oldest_pending(&mut self) -> Option<EndId>
        ensures oldest { result ≡ oldest_pending self.old.ends }
        ensures same { self.new ≡ self.old }
    {
        self.ends.oldest_pending()
    }

    /// Of the ends on which no name came yet, the one that has been open for the longest: a caller that limits how many handshakes go
    /// on at once gives up this end first, since its other side has not said anything. As with `oldest_pending`, no other call sees
    /// that this one was made.
    pub fn oldest_unnamed(&mut self) -> Option<EndId>
        ensures oldest { result ≡ oldest_unnamed self.old.ends }
        ensures same { self.new ≡ self.old }
    {
        self.ends.oldest_unnamed()
    }

    /// Forgets why the ends below this number were closed: from then on each of them answers as if the other side had ended its
    /// connection ([`Why::Ended`]). Open ends stay as they are, and no number is given out again. It takes no memory, and looks
    /// at each open end once and at each cause that is kept.
    ///
    /// A closed end takes one byte, its cause, and none once that is forgotten. So whoever runs a node for years calls this from
    /// time to time, with a number below which nobody will ask any more why an end was closed. This isn't a step: it is not counted,
    /// sends nothing and is never refused. By the law `forgetting_changes_no_step` of `dist_core_laws` it changes
    /// nothing else: each event has the reply or the refusal that it would have had, but for the cause that
    /// [`StepError::Gone`] carries.
    #[tactic(auto, using(crate::proofs::Forgetting::length_forgotten))]
    pub fn forget(&mut self, below: EndId)
        ensures { self.new ≡ record self.old { ends = without_causes_below below.0 self.old.ends } }
    {
        self.ends.forget(below);
    }

    /// Takes an event. A refusal changes nothing, and is the first that holds in the order of [`StepError`].
    ///
    /// `fresh` is the challenge of a step that sends a challenge or a reply; any other step ignores it. The caller draws it
    /// anew for each step, so that nobody knows a digest beforehand.
    #[inline(always)]
    pub fn step(&mut self, alloc: Global, event: &Event, fresh: u32) -> Result<Reply, StepError>
        // The reply and the node afterwards are those of the definition, or the refusal is.
        ensures step { IsStep result (step self.old event.now fresh) self.old self.new }

        // An end that is unknown or closed is refused as such, and an open one can always be lost.
        ensures unknown { (x : EndId) → end_of event.now ≡ Some x → slice_get self.old.ends x.0 ≡ None → result ≡ Err StepError.NoSuchEnd }
        ensures gone { (x : EndId) (w : Why) → end_of event.now ≡ Some x → slice_get self.old.ends x.0 ≡ Some (End.Closed w) → result ≡ Err (StepError.Gone w) }
        ensures loss { IsTrue (is_loss event.now) → result ≢ Err StepError.NoMemory }
        ensures lost { (x : EndId) (w : Why) (e : End) → event.now ≡ Event.Lost x w → slice_get self.old.ends x.0 ≡ Some e → is_open e ≡ true → IsOk result }
        ensures silent { (x : EndId) (w : Why) → event.now ≡ Event.Lost x w → IfOk result (λ r. r ≡ loss_reply x w) }
        ensures alone { IsTrue (is_loss event.now) → IfErr result IsGone }
        ensures quiet { IsTrue (is_loss event.now) → IfOk result IsSilent }

        // A frame closes an end that is up only where it is a right reply.
        ensures replaced { IfOk result (λ r. ClosesOnReply self.old event.now r) }

        // The ends that hold a peer are exactly those that its entry names.
        ensures legal { AreLegal self.old.ends }
    {
        self.show_legal();
        self.step_kept(alloc, &Returned, event, fresh)
    }

    /// A connection came: gives out its end. The step of [`Event::Incoming`], whose reply says nothing else.
    #[tactic(auto, unfolding(crate::specs::Step::effect_of))]
    #[inline(always)]
    pub fn accept(&mut self) -> Result<EndId, StepError>
        ensures ok { (link fresh : ℕ) → IfOk result (λ id. step self.old (Event.Incoming link) fresh ≡ Ok (silent_reply id, self.new)) }
        ensures err { (link fresh : ℕ) → IfErr result (λ e. Refuses e (step self.old (Event.Incoming link) fresh)) }
        ensures unchanged { OnErr result (self.new ≡ self.old) }
    {
        self.show_legal();
        if self.gives_no_end() {
            return Err(StepError::Spent);
        }
        if self.is_crowded() {
            return Err(StepError::Full);
        }
        let id = self.new_id();
        let _ = self.most_ends();
        if self.ends.add().is_err() {
            return Err(StepError::NoMemory);
        }
        self.steps += 1;
        Ok(id)
    }

    /// The connection of this end is lost, or is given up. The step of [`Event::Lost`], whose reply says nothing else. It takes no
    /// memory, and fails only where the end is unknown or closed.
    #[tactic(auto, unfolding(crate::specs::Step::effect_of))]
    #[inline(always)]
    pub fn lose(&mut self, id: EndId, why: Why) -> Result<(), StepError>
        ensures ok { (fresh : ℕ) → OnOk result (step self.old (Event.Lost id why) fresh ≡ Ok (loss_reply id why, self.new)) }
        ensures err { (fresh : ℕ) → IfErr result (λ e. step self.old (Event.Lost id why) fresh ≡ Err e) }
        ensures gone { IfErr result IsGone }
        ensures open_end { (e : End) → slice_get self.old.ends id.0 ≡ Some e → is_open e ≡ true → IsOk result }
        ensures unchanged { OnErr result (self.new ≡ self.old) }
    {
        self.show_legal();
        let _end = open_end(&self.ends, id)?;
        self.ends.close(id, why);
        Ok(())
    }

    /// A tick is due on this end: whoever carries its connection sends a packet of no bytes, which is [`dist_frames::tick`]. This is
    /// the step of [`Event::Tick`], whose reply says nothing else. It takes no memory.
    #[tactic(auto, unfolding(crate::specs::Step::effect_of), using(crate::proofs::Ticks::ticks))]
    #[inline(always)]
    pub fn tick(&mut self, id: EndId) -> Result<(), StepError>
        ensures ok { (fresh : ℕ) → OnOk result (step self.old (Event.Tick id) fresh ≡ Ok (tick_reply id, self.new)) }
        ensures err { (fresh : ℕ) → IfErr result (λ e. step self.old (Event.Tick id) fresh ≡ Err e) }
        ensures unchanged { OnErr result (self.new ≡ self.old) }
    {
        self.check_tick(id)?;
        self.steps += 1;
        Ok(())
    }

    /// What `step` would return, or `NoMemory` where memory runs out for the answer itself. It changes nothing.
    pub fn answer(&self, alloc: Global, event: &Event, fresh: u32) -> Result<Reply, StepError>
        ensures answer { GivesReply result (step self.now event.now fresh) }

        ensures unknown { (x : EndId) → end_of event.now ≡ Some x → slice_get self.now.ends x.0 ≡ None → result ≡ Err StepError.NoSuchEnd }
        ensures gone { (x : EndId) (w : Why) → end_of event.now ≡ Some x → slice_get self.now.ends x.0 ≡ Some (End.Closed w) → result ≡ Err (StepError.Gone w) }
        ensures loss { IsTrue (is_loss event.now) → result ≢ Err StepError.NoMemory }
        ensures lost { (x : EndId) (w : Why) (e : End) → event.now ≡ Event.Lost x w → slice_get self.now.ends x.0 ≡ Some e → is_open e ≡ true → IsOk result }
        ensures silent { (x : EndId) (w : Why) → event.now ≡ Event.Lost x w → IfOk result (λ r. r ≡ loss_reply x w) }
        ensures alone { IsTrue (is_loss event.now) → IfErr result IsGone }
        ensures quiet { IsTrue (is_loss event.now) → IfOk result IsSilent }
    {
        self.answer_by_effect(alloc, event, fresh)
    }

    /// Why this event is refused, for a caller that has no memory for what the step would need: `NoMemory` is the last of
    /// all reasons.
    #[inline(never)]
    pub fn refusal_without_memory(&self, alloc: Global, event: &Event, fresh: u32) -> StepError
        ensures { Refuses result (step self.now event.now fresh) }
    {
        match self.answer(alloc, event, fresh) {
            Ok(_) => StepError::NoMemory,
            Err(error) => error,
        }
    }

    // Does nothing: its clause says what holds of the ends of a node, where a proof needs that before the step.
    #[inline(always)]
    pub(crate) fn show_legal(&self)
        ensures { AreLegal self.now.ends }
    {
        let _ = self.open_ends();
    }

    // Whether the end takes a tick: it leaves all ends as they are.
    #[inline(always)]
    pub(crate) fn check_tick(&self, id: EndId) -> Result<(), StepError>
        ensures ok { OnOk result (TakesTick self.now id) }
        ensures left { OnOk result (self.now.steps + 1 < 2 ^ 64) }
        ensures err { IfErr result (λ e. (e ≢ StepError.NoMemory) × (at_end (slice_get self.now.ends id.0) (tick_effect self.now id) ≡ Err e)) }
    {
        let End::Up(_) = open_end(&self.ends, id)? else {
            return Err(StepError::WrongPhase);
        };
        if self.is_spent() {
            return Err(StepError::Spent);
        }
        Ok(())
    }

    // Changes the ends as the definition says of a step that counts.
    pub(crate) fn change_ends(
        &mut self,
        reply: &Reply,
        this: End,
        other: Option<(EndId, End)>,
    ) -> Result<(), StepError>
        requires fits { AreLegal self.old.ends → FitsNodeTable self.old (table_of self.old.ends) (record { reply = reply.now; this = this; other = other }) }
        requires few { length (ends_after self.old.ends (record { reply = reply.now; this = this; other = other })) ≤ self.old.steps + 1 }
        requires bounded { self.old.steps + 1 ≤ (let l = limits_of self.old in l.steps) }
        requires numbered { length (ends_after self.old.ends (record { reply = reply.now; this = this; other = other }))
            ≤ (let l = limits_of self.old in l.ends) }
        ensures ok { OnOk result (self.new ≡ record {
          setup = self.old.setup;
          steps = self.old.steps + 1;
          ends = ends_after self.old.ends (record { reply = reply.now; this = this; other = other });
        }) }
        ensures err { IfErr result (λ e. (e ≡ StepError.NoMemory) × (self.new ≡ self.old)) }
    {
        // Calls whose clauses say that each end has a number, and that the steps can be counted.
        let _ = self.most_ends();
        let _ = self.most_steps();
        match self.ends.change(&self.setup.name, reply.end_, this, other) {
            Ok(()) => {
                self.steps += 1;
                Ok(())
            }
            Err(_) => Err(StepError::NoMemory),
        }
    }

    // How many steps were counted; its clause says what always holds of a node.
    pub(crate) fn counted_steps(&self) -> u64
        ensures is { result ≡ self.now.steps }
        ensures legal { AreLegal self.now.ends }
        ensures few { length self.now.ends ≤ self.now.steps }
        ensures bounded { self.now.steps ≤ (let l = limits_of self.now in l.steps) }
        ensures numbered { length self.now.ends ≤ (let l = limits_of self.now in l.ends) }
    {
        self.show_legal();
        self.steps
    }

    // Whether all steps were made.
    pub(crate) fn is_spent(&self) -> bool
        ensures is { result ≡ is_spent self.now }
        ensures left { result ≡ false → self.now.steps + 1 < 2 ^ 64 }
    {
        self.steps >= self.setup.limits.steps
    }

    pub(crate) fn most_steps(&self) -> u64
        ensures most { result ≡ (let l = limits_of self.now in l.steps) }
        ensures fits { (let l = limits_of self.now in l.steps) < 2 ^ 64 }
    {
        self.setup.limits.steps
    }

    // Whether no further end can be given out.
    pub(crate) fn gives_no_end(&self) -> bool
        ensures is { result ≡ (is_spent self.now || is_given_out self.now) }
        ensures left { result ≡ false → self.now.steps + 1 < 2 ^ 64 }
    {
        self.is_spent() || self.ends.len() >= self.most_ends() as usize
    }

    // The most ends that it gives out: each has a number.
    pub(crate) fn most_ends(&self) -> u32
        ensures most { result ≡ (let l = limits_of self.now in l.ends) }
        ensures few { length self.now.ends < 2 ^ 32 }
    {
        self.setup.limits.ends
    }

    // Whether there is no room for a further open end.
    pub(crate) fn is_crowded(&self) -> bool
        ensures { result ≡ is_crowded self.now }
    {
        self.open_ends() >= self.setup.limits.open_ends as usize
    }

    pub(crate) fn new_id(&self) -> EndId
        ensures { result ≡ new_id self.now }
    {
        let _ = self.most_ends();
        self.ends.next_id()
    }

    // Whether there is no room for an entry of this peer.
    pub(crate) fn is_full_for(&self, peer: &NodeName) -> bool
        ensures { result ≡ is_full_for self.now (entry_in self.now.ends peer.now) }
    {
        self.ends.is_full_for(peer, self.setup.limits.entries)
    }

    pub(crate) fn verdict(&self, peer: &NodeName, id: EndId) -> Verdict
        ensures { result ≡ verdict_in self.now id peer.now }
    {
        self.ends.verdict(&self.setup.name, peer, id)
    }
}

// The reply of a step that sends this on the end, and has nothing else to report.
#[inline(always)]
pub(crate) fn reply_that_says(id: EndId, say: ByteString) -> Reply
    ensures { result ≡ record { end_ = id; say = say; closed = None; up = None; note = Note.Nothing } }
{
    Reply {
        end_: id,
        say,
        closed: None,
        up: None,
        note: Note::Nothing,
    }
}
