//! How long each step on the way to a node may take, where its host has several addresses: the time of a step is shared by all of
//! them.

ghost use Rattle.std.specs.{Prelude.◌≡◌, Prelude.◌-◌, Duration.as_nanos};
ghost use Rattle.dist_program.specs.Budgets.{left_of, share_of, spent_of};

use std::time::Duration;

/// A step that has a limit of its own.
#[derive(Clone, Copy)]
pub enum TimedStep {
    /// The connect to the port mapper's port.
    Mapper,
    /// The lookup.
    Lookup,
    /// The connect to the node's port.
    Port,
    /// The talk with the node: the handshake, or a probe's part of it.
    Talk,
}

/// What is left of the time of each step.
#[derive(Clone, Copy)]
pub struct Budget {
    /// For connects to the port mapper's port.
    pub mapper: Duration,
    /// For lookups.
    pub lookup: Duration,
    /// For connects to the node's port.
    pub port: Duration,
    /// For talks.
    pub talk: Duration,
    /// How many addresses are still to be tried, the present one included.
    pub addresses: u32,
}

impl Budget {
    /// This many seconds for each step, for this many addresses in all.
    pub fn new(seconds: u16, addresses: u32) -> Budget
        ensures count { result.addresses ≡ addresses }
    {
        let each = Duration::from_secs(u64::from(seconds));
        Budget {
            mapper: each,
            lookup: each,
            port: each,
            talk: each,
            addresses,
        }
    }

    // What is left of the time of this step.
    fn left(&self, step: TimedStep) -> Duration
        ensures { result ≡ left_of self.now step }
    {
        match step {
            TimedStep::Mapper => self.mapper,
            TimedStep::Lookup => self.lookup,
            TimedStep::Port => self.port,
            TimedStep::Talk => self.talk,
        }
    }

    /// How long this step may take at the present address: an equal part of what is left for each address that is still to be tried.
    pub fn share(&self, step: TimedStep) -> Duration
        ensures share { as_nanos result ≡ share_of (as_nanos (left_of self.now step)) self.now.addresses }
    {
        match self.left(step).checked_div(self.addresses) {
            Some(part) => part,
            None => Duration::ZERO,
        }
    }

    // Subtracts what was spent from the time of this step.
    fn spend(&mut self, step: TimedStep, spent: Duration)
        ensures spent { as_nanos (left_of self.new step) ≡ as_nanos (left_of self.old step) - as_nanos spent }
        ensures count { self.new.addresses ≡ self.old.addresses }
    {
        match step {
            TimedStep::Mapper => self.mapper = self.mapper.saturating_sub(spent),
            TimedStep::Lookup => self.lookup = self.lookup.saturating_sub(spent),
            TimedStep::Port => self.port = self.port.saturating_sub(spent),
            TimedStep::Talk => self.talk = self.talk.saturating_sub(spent),
        }
    }

    /// Ends this step, where this much of its share was unused: the rest of the share is spent.
    pub fn settle(&mut self, step: TimedStep, unused: Duration)
        ensures left { as_nanos (left_of self.new step) ≡ as_nanos (left_of self.old step) - spent_of self.old step (as_nanos unused) }
        ensures count { self.new.addresses ≡ self.old.addresses }
    {
        let spent = self.share(step).saturating_sub(unused);
        self.spend(step, spent)
    }

    /// Leaves the present address for the next one.
    pub fn go_on(&mut self)
        ensures { self.new.addresses ≡ self.old.addresses - 1 }
    {
        self.addresses = self.addresses.saturating_sub(1);
    }
}
