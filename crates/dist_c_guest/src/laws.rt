//! Laws of histories, of worlds of guests and of guards: each is a function that does nothing, and whose contract is the law.
ghost use Rattle.std.specs.Prelude.{◌≡◌, ◌≢◌, ℕ, Bool, false, List, Option, Some, Result, Err, slice_get};
ghost use Rattle.dist_peers.specs.declared.entry.EndId.{EndId};
ghost use Rattle.dist_messages.specs.{declared.message.Message.Message, Canonical.canonical, Spelling.Fits};
ghost use Rattle.dist_core_setup.specs.declared.setup.Setup.{Setup};
ghost use Rattle.dist_core_ends.specs.{declared.known.UpRecord.UpRecord, declared.why.Why.Why, Ends.AreLegal};
ghost use Rattle.dist_core_ends.specs.declared.known.End.TheVariants as ends;
ghost use Rattle.dist_core.specs.{Acts.run_acts, Node.NodeState, Runs.run, Step.step};
ghost use Rattle.dist_core.specs.declared.{reply.Reply.Reply, step_error.StepError.StepError};
ghost use Rattle.dist_core.specs.declared.event.Event.TheVariants as event;
ghost use Rattle.dist_core.specs.declared.step_error.StepError.TheVariants as error;
ghost use Rattle.dist_world_model.specs.{Agreement.Agreement, Agreement.AreSetups, Agreement.IsFooled, World.empty, declared.happening.Happening.Happening};
ghost use Rattle.dist_world_model.specs.Run as worlds;
ghost use Rattle.dist_c_guest.specs.{Calls.answer_to, Calls.frame_to, Reading.expansion, Reading.plain, Whole.HasWhole, declared.guest.Guest.Guest};
ghost use Rattle.dist_c_guest.specs.Histories.{AnyCall, Call, IsAnyHistory, IsHistory, acts_of, events_of};
ghost use Rattle.dist_c_guest.specs.Worlds.{AllFitGuests, AreWhole, Guests, all_read, run_guests, setups_in};
ghost use Rattle.dist_c_guest.specs.ShownPeers.{AgreeBy, GuardShows};
ghost use Rattle.dist_c_guest.specs.Guard.{AreUp, Guard, IsGuarded, Told, acts_run, first_guard, guarded, run_guard, told_of_frame};
ghost use Rattle.dist_c_guest.specs.Guard as told;

use dist_core_laws::acts_keep_ends;
use dist_world_model::{frames_are_canonical, nodes_agree, ups_are_linked};

/// Whatever steps were made on a guest, and nothing else, its node is the definition's run over the events for which memory did
/// not run out: so what is proved of all runs holds of such a guest.
pub fn a_history_is_a_run()
    ensures { (calls : List Call) (first last : Guest) → IsHistory calls first last → last.node ≡ run (events_of calls) first.node }
{}

/// Whatever calls were made on a guest, steps, changes of its setup and its forms, forgetting and renewing in any order, its node
/// is the definition's run over what those calls did for which memory did not run out: so what is proved of all such runs holds of
/// every guest.
pub fn any_history_is_a_run()
    ensures { (calls : List AnyCall) (first last : Guest) → IsAnyHistory calls first last → last.node ≡ run_acts (acts_of calls) first.node }
{}

/// A guest to which the digest stands for no flags, and which keeps no forms, hands each body to its node as it came, and
/// answers as the node's definition does: for it the clauses that speak of frames say what they say of the node.
pub fn plain_guests_read_what_came()
    ensures { (g : Guest) → g.reading ≡ plain → (id : EndId) (body : List ℕ) (fresh : ℕ)
        → (frame_to g id body ≡ event.Frame id body) × (answer_to g id body fresh ≡ step g.node (event.Frame id body) fresh) }
{}

/// A body of a message whose flags are whole, or that has none, is read as it came, whatever flags the digest stands for: a
/// message has whole flags where those that the digest stands for are among them wherever the digest is.
pub fn whole_bodies_are_read_as_they_came()
    ensures { (mask : ℕ) (m : Message) → Fits m → HasWhole mask m → expansion mask (canonical m) ≡ canonical m }
{}

/// GUESTS ARE NODES. In a world of guests that are whole, as `dn_node_new` makes them, also where they begin again with another setup,
/// reading by the digest changes nothing of what they say to one another: whatever happens, their world is that of nodes with the same
/// setups, to whom somebody outside sends what the guests read.
pub fn guests_are_nodes()
    ensures { (guests : Guests) (happenings : List Happening) → AreSetups (setups_in guests) → AllFitGuests guests happenings → AreWhole guests
        → run_guests guests happenings ≡ worlds.run (all_read guests happenings) (empty (setups_in guests)) }
{
    frames_are_canonical();
}

/// THE AGREEMENT OF GUESTS. Whatever happens, two running guests of distinct names that each count the other as up agree, where
/// each is whole.
pub fn guests_agree()
    ensures { (guests : Guests) (happenings : List Happening) → AreSetups (setups_in guests) → AllFitGuests guests happenings → AreWhole guests
        → Agreement (run_guests guests happenings) }
{
    frames_are_canonical();
    nodes_agree();
}

/// Whatever a guard is told, every end that is shown is up in its node.
pub fn shown_ends_are_up()
    ensures { (setup : Setup) (told : List Told) → AreUp (run_guard told (first_guard setup)) }
{
    acts_keep_ends();
}

/// Of a peer one end is up at most, and so one is shown at most.
pub fn one_end_of_a_peer_is_up()
    ensures { (n : NodeState) → AreLegal n.ends → (i j : ℕ) (r s : UpRecord) → slice_get n.ends i ≡ Some (ends.Up r)
        → slice_get n.ends j ≡ Some (ends.Up s) → r.peer ≡ s.peer → i ≡ j }
{}

/// An end that was up, and whose connection is gone, is closed and not shown: a frame that was held for it goes on.
pub fn gone_ends_are_closed()
    ensures closed { (g : Guard) (x : EndId) (w : Why) (r : UpRecord) → slice_get g.node.ends x.0 ≡ Some (ends.Up r)
        → slice_get (let k = guarded g (told.Gone x w) in k.node.ends) x.0 ≡ Some (ends.Closed w) }
    ensures hidden { (g : Guard) (x : EndId) (w : Why) → (let k = guarded g (told.Gone x w) in k.shown x.0) ≡ false }
{}

/// Whatever a guard is told, its node is the run of what was not held: so what is proved of all runs holds of it.
pub fn guards_are_runs()
    ensures { (told : List Told) (g : Guard) → (let k = run_guard told g in k.node) ≡ run_acts (acts_run told g) g.node }
{}

/// A call of [`crate::take_guarded`] is what a guard is told of its frame, unless memory ran out: so the laws of guards hold of guests that
/// get their frames by it.
pub fn guarded_frames_are_told()
    ensures { (result : Result (Option Reply) StepError) (id : EndId) (body : List ℕ) (fresh : ℕ) (old new : Guest) (shown : ℕ → Bool)
        → IsGuarded result id body fresh old new → result ≢ Err error.NoMemory
        → (let k = run_guard (told_of_frame old id body fresh) (record { node = old.node; shown = shown }) in k.node) ≡ new.node }
{}

/// THE AGREEMENT OF GUARDS. Whatever happens in a world of guests that are whole, two running nodes whose guards show each other agree:
/// on one connection, whose two ends they show, on its flags, and on each other's creation. What is asked is that none of
/// the two takes somebody outside for the other.
pub fn shown_peers_agree()
    ensures { (guests : Guests) (happenings : List Happening) → AreSetups (setups_in guests) → AllFitGuests guests happenings → AreWhole guests
        → (a b : ℕ) → a ≢ b → (IsFooled (run_guests guests happenings) a b → ⊥) → (IsFooled (run_guests guests happenings) b a → ⊥)
        → (s : GuardShows (run_guests guests happenings) a b) → (t : GuardShows (run_guests guests happenings) b a)
        → AgreeBy (run_guests guests happenings) a b s.id t.id }
{
    acts_keep_ends();
    shown_ends_are_up();
    guests_are_nodes();
    nodes_agree();
    ups_are_linked();
}
