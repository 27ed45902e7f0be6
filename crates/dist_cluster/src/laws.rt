//! What holds of a watch, whatever is observed, and of latencies: each law is a function that does nothing, and whose contract is
//! the law.

ghost use Rattle.std.specs.Prelude.{◌≡◌, ◌≢◌, ℕ, ◌-◌, ◌^◌, min, List, [], ◌∷◌, ◌++◌, Some, length};
ghost use Rattle.dist_cluster.specs.History.{AreOfTargets, changes, last_observed, last_reported, reports};
ghost use Rattle.dist_cluster.specs.Latency.{FitWord, IsGreatest, IsLeast, last_few, most_kept, tally_of};
ghost use Rattle.dist_cluster.specs.{declared.change.Observation.Observation, declared.change.VerdictChange.VerdictChange, Watching.watching};

/// A watch reports the changes of a history, each once and in order, and nothing else.
pub fn each_change_is_reported_once()
    ensures { (targets : ℕ) (history : List Observation) → AreOfTargets targets history →
        reports (watching targets) history ≡ changes history }
{}

/// For each target the last verdict that was reported is the last one that was observed: whoever reads only the reports knows how
/// things stand.
pub fn reports_show_how_things_stand()
    ensures { (targets target : ℕ) (history : List Observation) → AreOfTargets targets history →
        last_reported target (reports (watching targets) history) ≡ last_observed target history }
{}

/// The old verdict in a report is the one that was reported last of that target, and the new verdict differs from it.
pub fn each_change_differs()
    ensures before { (targets : ℕ) (history : List Observation) (early late : List VerdictChange) (change : VerdictChange) → AreOfTargets targets history →
        reports (watching targets) history ≡ early ++ change ∷ late → change.before ≡ last_reported change.target early }
    ensures other { (targets : ℕ) (history : List Observation) (early late : List VerdictChange) (change : VerdictChange) → AreOfTargets targets history →
        reports (watching targets) history ≡ early ++ change ∷ late → change.before ≢ Some change.after }
{}

/// What is kept after any latencies.
pub fn what_is_kept_of_latencies()
    ensures count { (xs : List ℕ) → (tally_of xs).count ≡ min (length xs) (2 ^ 64 - 1) }
    ensures least { (x : ℕ) (xs : List ℕ) → FitWord (x ∷ xs) → IsLeast (x ∷ xs) (tally_of (x ∷ xs)).least }
    ensures worst { (x : ℕ) (xs : List ℕ) → IsGreatest (x ∷ xs) (tally_of (x ∷ xs)).worst }
    ensures recent { (xs : List ℕ) → (tally_of xs).recent ≡ last_few most_kept xs }
{}
