//! What holds of all histories.
ghost use Rattle.std.specs.Prelude.{◌≡◌, List, false};
ghost use Rattle.dist_locked_book.specs.declared.closing.Closed.{Closed};
ghost use Rattle.dist_audit.specs.{Lines.NodeLine, Lines.AreLinesOf, Faults.falls, Faults.twice};

/// Where tickets rise in each history and none stands in two, there is but one list of all lines in the order of their tickets.
pub fn lines_have_one_order()
    ensures { (cs : List Closed) (ts us : List NodeLine) → falls cs ≡ false → twice cs ≡ false → AreLinesOf cs ts → AreLinesOf cs us → ts ≡ us }
{}
