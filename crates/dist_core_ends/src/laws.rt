//! Laws of the lists of ends: each is a function that does nothing, and whose contract is the law.
ghost use Rattle.std.specs.Prelude.{◌≡◌, ◌≤◌, ℕ, List, [], Option, length, slice_get};
ghost use Rattle.dist_peers.specs.declared.entry.EndId.{EndId};
ghost use Rattle.dist_core_ends.specs.{declared.known.End.End, Ends.AreLegal, Change.IsThere, Change.with_change, Change.view_after};

/// After a change of one end (or of a new one behind the last), and perhaps of one other: these are changed, all else stays.
pub fn ends_after_a_change()
    ensures { (es : List End) (id : EndId) (this : End) (other : Option (EndId × End)) (i : ℕ)
        → id.0 ≤ length es → IsThere es other → slice_get (with_change es id this other) i ≡ view_after es id this other i }
{}

/// Where there are no ends, no end holds a peer, and no peer has an entry.
pub fn no_ends_are_legal()
    ensures { AreLegal [] }
{}
