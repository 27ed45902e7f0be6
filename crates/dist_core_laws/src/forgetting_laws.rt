//! Laws of what a node may forget: each is a function that does nothing, and whose contract is the law.
ghost use Rattle.std.specs.Prelude.{ℕ, List};
ghost use Rattle.dist_core_ends.specs.Forgetting.{without_causes_below};
ghost use Rattle.dist_core.specs.{declared.event.Event.Event, Acts.Act, Acts.run_acts, Node.NodeState, Runs.run, Step.step};
ghost use Rattle.dist_core_laws.specs.Forgetting.{AreAlike, AreAlikeAnswers, without_forgetting};

/// Why ends were closed changes no step: nodes that differ only in that give the same reply to each event, or refuse it in the
/// same way, and afterwards again differ only in that. Only the cause that a refusal names for a closed end may be another.
pub fn forgetting_changes_no_step()
    ensures { (m n : NodeState) (v : Event) (fresh : ℕ) → AreAlike m n → AreAlikeAnswers (step m v fresh) (step n v fresh) }
{}

/// A node that forgets why its ends below a number were closed is alike to the node before, and to each node that was alike to that.
pub fn a_node_that_forgets_is_alike()
    ensures itself { (n : NodeState) (below : ℕ) → AreAlike n (record n { ends = without_causes_below below n.ends }) }
    ensures other { (m n : NodeState) (below : ℕ) → AreAlike m n → AreAlike (record m { ends = without_causes_below below m.ends }) n }
{}

/// Nodes that are alike stay so, whatever is done to both, by events, changes of their setups, forgetting and renewing. So a
/// node that forgets from time to time, however often, goes on as one that never does.
pub fn alike_nodes_stay_alike()
    ensures runs { (m n : NodeState) (events : List (Event × ℕ)) → AreAlike m n → AreAlike (run events m) (run events n) }
    ensures acts { (m n : NodeState) (acts : List Act) → AreAlike m n → AreAlike (run_acts acts m) (run_acts acts n) }
    ensures never { (n : NodeState) (acts : List Act) → AreAlike (run_acts acts n) (run_acts (without_forgetting acts) n) }
{}
