//! Laws of nodes to which more is done than steps: each is a function that does nothing, and whose contract is the law.
ghost use Rattle.std.specs.Prelude.{◌≡◌, ℕ, List, true};
ghost use Rattle.dist_names.specs.Order.{Name};
ghost use Rattle.dist_core_setup.specs.{declared.setup.Setup.Setup, Changing.DigestsStay};
ghost use Rattle.dist_core_ends.specs.Ends.{AreLegal, entry_in};
ghost use Rattle.dist_core.specs.{declared.event.Event.Event, Acts.Act, Acts.act, Acts.changed_or, Acts.run_acts, declared.changing.Change.Change};
ghost use Rattle.dist_core.specs.{Changing.change, Changing.is_up, Node.NodeState, Node.limits_of, Runs.node_after, Runs.opening, Step.step};
ghost use Rattle.dist_core_laws.specs.{Laws.IsWithinLimits, Records.AreRight};

/// Cookies in use stay. Whatever change is asked for, a peer with which an end is up keeps its cookie.
pub fn cookies_in_use_stay()
    ensures { (n : NodeState) (v : Change) (p : Name) → is_up (entry_in n.ends p) ≡ true → DigestsStay n.setup (changed_or n (change n v)).setup p }
{}

/// Records stay right. Whatever is done to a node, by steps, changes of its setup, forgetting and renewing in any order, for each
/// end that is up the other side has shown the cookie that the node has for it now: the end's record holds the digest of that cookie
/// and of the end's own challenge.
pub fn records_stay_right()
    ensures runs { (setup : Setup) (acts : List Act) → AreRight (run_acts acts (opening setup)) }
    ensures first { (setup : Setup) → AreRight (opening setup) }
    ensures step { (n : NodeState) (v : Event) (fresh : ℕ) → AreLegal n.ends → AreRight n → AreRight (node_after n (step n v fresh)) }
    ensures change { (n : NodeState) (v : Change) → AreLegal n.ends → AreRight n → AreRight (changed_or n (change n v)) }
    ensures act { (n : NodeState) (x : Act) → AreLegal n.ends → AreRight n → AreRight (act n x) }
{}

/// Whatever is done to a node, by steps, changes of its setup, forgetting and renewing in any order, the ends that hold a peer
/// are exactly those that its entry names, and the node stays within the limits with which it began.
pub fn acts_keep_ends()
    ensures legal { (setup : Setup) (acts : List Act) → AreLegal (run_acts acts (opening setup)).ends }
    ensures within { (setup : Setup) (acts : List Act) → IsWithinLimits (run_acts acts (opening setup)) }
    ensures limits { (n : NodeState) (acts : List Act) → limits_of (run_acts acts n) ≡ limits_of n }

    // A change leaves the ends and the count of steps as they are.
    ensures ends { (n : NodeState) (v : Change) → (changed_or n (change n v)).ends ≡ n.ends }
    ensures steps { (n : NodeState) (v : Change) → (changed_or n (change n v)).steps ≡ n.steps }
{}
