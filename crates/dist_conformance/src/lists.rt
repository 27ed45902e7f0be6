//! Lists of what a suite has.

ghost use Rattle.std.specs.Prelude.{◌≡◌};

use std::marker::Model;

/// Rows, steps, patterns or messages, in order. Contracts see the list of them.
#[derive(Drop)]
pub struct SuiteList<T> {
    items: Vec<T>,
}

impl<T> Model for SuiteList<T> {
    ghost use Rattle.std.specs.Prelude.{List};

    ghost Value = { List T };

    ghost view = { λ l. l.items.items };
}

impl<T> SuiteList<T> {
    /// The list of these. It takes no memory.
    pub fn from_vec(items: Vec<T>) -> SuiteList<T>
        ensures { result ≡ items.items }
    {
        SuiteList { items }
    }

    /// Its items.
    pub fn as_slice(&self) -> &[T]
        ensures { result.now ≡ self.now }
    {
        &self.items
    }
}
