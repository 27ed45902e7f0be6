//! The lists of a plan.

ghost use Rattle.std.specs.Prelude.{◌≡◌};

use std::marker::Model;

/// The nodes of a plan, or its dials. Contracts see the list of them.
#[derive(Drop)]
pub struct PlanList<T> {
    rows: Vec<T>,
}

impl<T> Model for PlanList<T> {
    ghost use Rattle.std.specs.Prelude.{List};

    ghost Value = { List T };

    ghost view = { λ b. b.rows.items };
}

impl<T> PlanList<T> {
    /// The list of these. It takes no memory.
    pub fn from_vec(rows: Vec<T>) -> PlanList<T>
        ensures { result ≡ rows.items }
    {
        PlanList { rows }
    }

    /// Its nodes or dials.
    pub fn as_slice(&self) -> &[T]
        ensures { result.now ≡ self.now }
    {
        &self.rows
    }
}
