//! Laws of a step that succeeds: each is a function that does nothing, and whose contract is the law.
ghost use Rattle.std.specs.Prelude.{◌≡◌, ◌+◌, ◌≤◌, ℕ, List, true, Ok, Some, length, slice_get, count_by};
ghost use Rattle.dist_messages.specs.declared.message.Message.{Message};
ghost use Rattle.dist_peers.specs.declared.entry.EndId.{EndId};
ghost use Rattle.dist_core_ends.specs.{Change.IsThere, Change.view_after, Ends.AreLegal, Ends.is_open};
ghost use Rattle.dist_core_ends.specs.declared.{known.End.End, known.UpRecord.UpRecord, why.Why.Why};
ghost use Rattle.dist_core_ends.specs.declared.known.End.TheVariants as ends;
ghost use Rattle.dist_core.specs.{Clauses.IsRightReply, Losses.is_loss, Node.NodeState, Node.ends_after, Rows.Heard, Step.effect_of, Step.step};
ghost use Rattle.dist_core.specs.declared.{effect.Effect.Effect, event.Event.Event, reply.Reply.Reply};
ghost use Rattle.dist_core.specs.declared.event.Event.TheVariants as event;
ghost use Rattle.dist_core_laws.specs.Laws.{HasEffect, IsOfItsEnd, closed_by, given_by};

/// A step that succeeds has an effect: its reply, and the node after it.
pub fn a_step_has_an_effect()
    ensures { (n : NodeState) (v : Event) (fresh : ℕ) (r : Reply) (m : NodeState) → step n v fresh ≡ Ok (r, m) → HasEffect n v fresh r m }
{}

/// A step that succeeds keeps the setup, and leaves legal ends legal.
pub fn a_step_keeps()
    ensures setup { (n : NodeState) (v : Event) (fresh : ℕ) (r : Reply) (m : NodeState) → step n v fresh ≡ Ok (r, m) → m.setup ≡ n.setup }
    ensures legal { (n : NodeState) (v : Event) (fresh : ℕ) (r : Reply) (m : NodeState) → AreLegal n.ends → step n v fresh ≡ Ok (r, m) → AreLegal m.ends }
{}

/// A step changes its own end, or gives out the next number, and at most one other end; all others stay.
pub fn two_ends_change_at_most()
    ensures places { (n : NodeState) (v : Event) (fresh : ℕ) (f : Effect) → AreLegal n.ends → effect_of n v fresh ≡ Ok f
        → (f.reply.end_.0 ≤ length n.ends) × IsThere n.ends f.other }
    ensures after { (n : NodeState) (v : Event) (fresh : ℕ) (f : Effect) (i : ℕ) → AreLegal n.ends → effect_of n v fresh ≡ Ok f
        → slice_get (ends_after n.ends f) i ≡ view_after n.ends f.reply.end_ f.this f.other i }
{}

/// A reply is of the end that the event names; where a new end is given out, the reply is of the next number and sends nothing.
pub fn a_reply_is_of_its_end()
    ensures effect { (n : NodeState) (v : Event) (fresh : ℕ) (f : Effect) → effect_of n v fresh ≡ Ok f → IsOfItsEnd n v f.reply }
    ensures step { (n : NodeState) (v : Event) (fresh : ℕ) (r : Reply) (m : NodeState) → step n v fresh ≡ Ok (r, m) → IsOfItsEnd n v r }
    ensures heard { (n : NodeState) (id : EndId) (fresh : ℕ) (e : End) (m : Message) (f : Effect) → Heard n id fresh e m f → f.reply.end_ ≡ id }
{}

/// How many ends are open after a step: one more for each that was given out, and one less for each that the reply reports as
/// closed; so at most one more, and after a loss one less.
pub fn open_ends_after_a_step()
    ensures exact { (n : NodeState) (v : Event) (fresh : ℕ) (r : Reply) (m : NodeState) → AreLegal n.ends → step n v fresh ≡ Ok (r, m)
        → count_by is_open m.ends + closed_by r ≡ count_by is_open n.ends + given_by v }
    ensures most { (n : NodeState) (v : Event) (fresh : ℕ) (r : Reply) (m : NodeState) → AreLegal n.ends → step n v fresh ≡ Ok (r, m)
        → count_by is_open m.ends ≤ count_by is_open n.ends + 1 }
    ensures loss { (n : NodeState) (v : Event) (fresh : ℕ) (r : Reply) (m : NodeState) → is_loss v ≡ true → step n v fresh ≡ Ok (r, m)
        → count_by is_open m.ends + 1 ≡ count_by is_open n.ends }
{}

/// An end that was lost is closed, for the cause that was reported.
pub fn a_lost_end_is_closed()
    ensures { (n : NodeState) (x : EndId) (w : Why) (fresh : ℕ) (r : Reply) (m : NodeState) → step n (event.Lost x w) fresh ≡ Ok (r, m)
        → slice_get m.ends x.0 ≡ Some (ends.Closed w) }
{}

/// Of the frames, only a reply closes an end that was up: the reply on a later connection of its peer, with the digest of
/// the own cookie and of the challenge of the end on which the reply came.
pub fn an_up_end_closes_on_a_right_reply()
    ensures { (n : NodeState) (id : EndId) (body : List ℕ) (fresh : ℕ) (r : Reply) (m : NodeState) (x : EndId) (w : Why) (kept : UpRecord)
        → AreLegal n.ends → step n (event.Frame id body) fresh ≡ Ok (r, m) → slice_get n.ends x.0 ≡ Some (ends.Up kept)
        → slice_get m.ends x.0 ≡ Some (ends.Closed w) → IsRightReply n (event.Frame id body) }
{}
