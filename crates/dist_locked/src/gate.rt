//! Gates, at which a dial worker asks whether to go on.
ghost use Rattle.std.specs.Prelude.{◌≡◌, true};

/// When a worker asks its gate: once before the first step of an order's connection, once after it.
#[derive(Clone, Copy, Debug, PartialEq, Eq)]
pub enum Moment {
    /// The connection is there, and the node was not given its event yet.
    BeforeStep,
    /// The node was given the event, and nothing was written yet.
    AfterStep,
}

/// Lets a dial worker go on, or has it give its end up. Workers are generic over it, so that a test can hold one of them
/// until another has passed. Source: our own choice.
pub trait Gate {
    /// Whether this worker goes on at this moment. Where it doesn't, its end is lost with GaveUp.
    fn at(&self, worker: u32, moment: Moment) -> bool;
}

/// The gate that is always open: the program's.
pub struct Open;

impl Gate for Open {
    fn at(&self, _worker: u32, _moment: Moment) -> bool
        ensures { result ≡ true }
    {
        true
    }
}
