//! The addresses that were tried.

ghost use Rattle.std.specs.Prelude.{◌≡◌, ◌++◌, ◌∷◌, [], length, OnOk};

use crate::links::attempt::AddressAttempt;
use dist_program::Budget;
use dist_talk::HandshakeVerdict;
use distping_report::{Dial, Found};
use std::alloc::AllocError;
use std::net::SocketAddr;

/// What was found out at each address so far, and the verdict on it.
#[derive(Drop)]
pub struct Tries {
    /// What was found out at each.
    pub found: Vec<Found>,
    /// The verdict on each.
    pub verdicts: Vec<HandshakeVerdict>,
    /// What is left of the time of each step, for the addresses that are still to be tried.
    pub budget: Budget,
    // Both have the same length.
    pub ghost paired: { length found.items ≡ length verdicts.items },
}

impl Tries {
    /// None of these addresses yet.
    pub fn nothing(dial: &Dial<'_>, addresses: &[SocketAddr]) -> Tries
        ensures { result.verdicts.items ≡ [] }
    {
        let count = u32::try_from(addresses.len()).unwrap_or(u32::MAX);
        Tries {
            found: Vec::new(dial.lines.alloc),
            verdicts: Vec::new(dial.lines.alloc),
            budget: Budget::new(dial.choices.seconds, count),
        }
    }

    /// Goes on to the next address, with the time that this attempt left.
    pub fn pass(&mut self, attempt: &AddressAttempt<'_>)
        ensures { (self.new.found ≡ self.old.found) × (self.new.verdicts ≡ self.old.verdicts) }
    {
        self.budget = attempt.budget;
        self.budget.go_on();
    }

    /// Adds an address.
    pub fn push(
        &mut self,
        attempt: AddressAttempt<'_>,
        verdict: HandshakeVerdict,
    ) -> Result<(), AllocError>
        ensures found { OnOk result (self.new.found.items ≡ self.old.found.items ++ attempt.entry.found ∷ []) }
        ensures verdict { OnOk result (self.new.verdicts.items ≡ self.old.verdicts.items ++ verdict ∷ []) }
    {
        self.pass(&attempt);
        self.verdicts.push(verdict)?;
        match self.found.push(attempt.found) {
            Ok(()) => Ok(()),
            Err(error) => {
                self.verdicts.pop();
                Err(error.into())
            }
        }
    }
}
