//! Laws of a node's limits: each is a function that does nothing, and whose contract is the law.
ghost use Rattle.std.specs.Prelude.{◌≡◌, ◌≤◌, ◌||◌, ℕ, List, length};
ghost use Rattle.dist_core_setup.specs.{declared.setup.Setup.Setup, Limits.usual_limits};
ghost use Rattle.dist_core.specs.Node.{NodeState, is_given_out, is_spent, limits_of};
ghost use Rattle.dist_core.specs.{declared.event.Event.Event, Runs.run, Runs.node_after, Runs.opening, Step.step};
ghost use Rattle.dist_core_ends.specs.Ends.{AreLegal};
ghost use Rattle.dist_core_laws.specs.Laws.{IsWithinLimits};

/// A node with the usual limits never runs out of numbers for ends while it has steps left, since each end took a step: it
/// refuses a dial or a connection as `Spent` only once all its steps are made.
pub fn usual_nodes_have_numbers()
    ensures { (n : NodeState) → limits_of n ≡ usual_limits → length n.ends ≤ n.steps → (is_spent n || is_given_out n) ≡ is_spent n }
{}

/// Whatever events a node gets, it makes no more steps, gives out no more ends, and has no more open ends and entries than
/// its limits allow.
pub fn limits_are_kept()
    ensures runs { (setup : Setup) (events : List (Event × ℕ)) → IsWithinLimits (run events (opening setup)) }
    ensures first { (setup : Setup) → IsWithinLimits (opening setup) }
    ensures step { (n : NodeState) (v : Event) (fresh : ℕ) → AreLegal n.ends → IsWithinLimits n → IsWithinLimits (node_after n (step n v fresh)) }
{}
