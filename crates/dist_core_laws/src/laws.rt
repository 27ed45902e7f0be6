//! Laws of one step, and of all runs of a node.
ghost use Rattle.std.specs.Prelude.{◌≡◌, ◌+◌, ◌⊎◌, ℕ, List, true, Ok, Some, None, count_by, slice_get};
ghost use Rattle.dist_peers.specs.declared.entry.EndId.{EndId};
ghost use Rattle.dist_peers.specs.declared.entry.Entry.TheVariants as entry;
ghost use Rattle.dist_core_setup.specs.declared.setup.Setup.{Setup};
ghost use Rattle.dist_core.specs.Runs.{run, node_after, opening};
ghost use Rattle.dist_core.specs.{Effects.superseded_end, Effects.supersedes, Node.NodeState, Node.ends_after, Rows.StepRow, Step.effect_of, Step.step};
ghost use Rattle.dist_core.specs.declared.{event.Event.Event, effect.Effect.Effect, reply.Reply.Reply};
ghost use Rattle.dist_core.specs.declared.event.Event.TheVariants as event;
ghost use Rattle.dist_core.specs.declared.reply.Note.TheVariants as note;
ghost use Rattle.dist_core_ends.specs.{Ends.AreLegal, Ends.entry_in, Ends.is_open, Change.put_end};
ghost use Rattle.dist_core_ends.specs.declared.{known.End.End, known.UpRecord.UpRecord, why.Why.Why, known.Attempt.Attempt};
ghost use Rattle.dist_core_ends.specs.declared.known.End.TheVariants as ends;
ghost use Rattle.dist_core_laws.specs.Laws.{IsDialledChallenge, IsOther, IsRightRecord, Supersedes, is_doomed, given_by, closed_by};

/// A step that succeeds is one of the rows of the tables, with all facts of that row.
pub fn steps_are_rows()
    ensures { (n : NodeState) (v : Event) (fresh : ℕ) (f : Effect) → effect_of n v fresh ≡ Ok f → StepRow n v fresh f }
{}

/// Whatever events a node gets, the ends that hold a peer are exactly those that its entry names.
pub fn entries_are_whole()
    ensures runs { (setup : Setup) (events : List (Event × ℕ)) → AreLegal (run events (opening setup)).ends }
    ensures first { (setup : Setup) → AreLegal (opening setup).ends }
    ensures step { (n : NodeState) (v : Event) (fresh : ℕ) → AreLegal n.ends → AreLegal (node_after n (step n v fresh)).ends }
{}

/// No step changes the setup.
pub fn setup_never_changes()
    ensures step { (n : NodeState) (v : Event) (fresh : ℕ) → (node_after n (step n v fresh)).setup ≡ n.setup }
    ensures run { (n : NodeState) (events : List (Event × ℕ)) → (run events n).setup ≡ n.setup }
{}

/// There is one more open end for an end that was given out, and one less for an end that the reply reports as closed.
pub fn open_ends_change()
    ensures { (n : NodeState) (v : Event) (fresh : ℕ) (f : Effect) → AreLegal n.ends → effect_of n v fresh ≡ Ok f
        → count_by is_open (ends_after n.ends f) + closed_by f.reply ≡ count_by is_open n.ends + given_by v }
{}

/// A loss closes its end, so that there is one open end less, and changes no other end.
pub fn a_loss_closes_one_end()
    ensures { (n : NodeState) (x : EndId) (w : Why) (fresh : ℕ) (f : Effect) → effect_of n (event.Lost x w) fresh ≡ Ok f
        → (ends_after n.ends f ≡ put_end n.ends x.0 (ends.Closed w)) × (count_by is_open (ends_after n.ends f) + 1 ≡ count_by is_open n.ends) }
{}

/// The other end that a step changes is open, and never the event's own.
pub fn another_end_is_replaced()
    ensures { (n : NodeState) (v : Event) (fresh : ℕ) (f : Effect) (x : EndId) (s : End) → AreLegal n.ends → effect_of n v fresh ≡ Ok f
        → f.other ≡ Some (x, s) → IsOther n f.reply.end_ x }
{}

/// A crossing name dooms the dialled end if no status came on it yet, and closes it if a status let it go on.
pub fn a_crossing_dooms_or_closes()
    ensures { (n : NodeState) (id : EndId) (say : List ℕ) (b : Attempt) (x : EndId) (f : Effect) → AreLegal n.ends
        → entry_in n.ends b.peer ≡ Some (entry.Out x) → f ≡ supersedes id say b x (superseded_end (slice_get n.ends x.0)) → Supersedes n id say b x f }
{}

/// A doomed end stays as it is until it is closed: it never comes up.
pub fn a_doomed_end_never_comes_up()
    ensures step { (n : NodeState) (v : Event) (fresh : ℕ) (r : Reply) (m : NodeState) (x : EndId) (e : End) → AreLegal n.ends
        → step n v fresh ≡ Ok (r, m) → slice_get n.ends x.0 ≡ Some e → is_doomed e ≡ true
        → (slice_get m.ends x.0 ≡ Some e) ⊎ ((w : Why) × (slice_get m.ends x.0 ≡ Some (ends.Closed w))) }
    ensures up { (n : NodeState) (v : Event) (fresh : ℕ) (f : Effect) (e : End) → effect_of n v fresh ≡ Ok f
        → slice_get n.ends f.reply.end_.0 ≡ Some e → is_doomed e ≡ true → f.reply.up ≡ None }
{}

/// A reply is sent only to a challenge of the name that was dialled, while its end holds that peer and no other end does.
pub fn a_reply_is_said_to_the_dialled_name()
    ensures { (n : NodeState) (v : Event) (fresh : ℕ) (f : Effect) → AreLegal n.ends → effect_of n v fresh ≡ Ok f → f.reply.note ≡ note.ReplySaid
        → IsDialledChallenge n v }
{}

/// An end comes up only with the digest of the own cookie and its own challenge, and its record holds it.
pub fn an_end_comes_up_on_the_right_digest()
    ensures { (n : NodeState) (v : Event) (fresh : ℕ) (f : Effect) (r : UpRecord) → effect_of n v fresh ≡ Ok f → f.reply.up ≡ Some r → IsRightRecord n.setup r }
{}
