//! Orders that were not followed.

ghost use Rattle.std.specs.{Prelude.◌≡◌, Prelude.◌⊎◌, Prelude.true, Prelude.false, IoError.raw_os_error};
ghost use Rattle.dist_run_hosts.specs.Words.{order_refusal_name, is_silence, IsOutOfDescriptors};
ghost use Rattle.dist_run_hosts.specs.declared.order_fault.OrderRefusal.TheVariants.{NoRegistry, NoDescriptors, Lookup};

use dist_core::StepError;
use dist_drive::LookupError;
use std::io;

// The system's table of open files is full. The other number, EMFILE, says that the process has as many as it may.
const ENFILE: i32 = 23;

/// Why an order made no `Dial` step.
#[derive(Clone, Copy)]
pub enum OrderRefusal {
    /// The port mapper couldn't be connected to.
    NoRegistry,
    /// No descriptor was left to ask the port mapper with, or for it to answer.
    NoDescriptors,
    /// The port mapper doesn't know the peer, or didn't say where it listens.
    Lookup(LookupError),
    /// The node refused to dial.
    Step(StepError),
}

impl OrderRefusal {
    /// Why an order makes no step where the port mapper couldn't be connected to, by what the system says of it.
    pub fn of_connect(error: &io::Error) -> OrderRefusal
        ensures descriptors { IsOutOfDescriptors (raw_os_error error.now) → result ≡ NoDescriptors }
        ensures registry { ¬ IsOutOfDescriptors (raw_os_error error.now) → result ≡ NoRegistry }
    {
        match error.raw_os_error() {
            Some(libc::EMFILE | ENFILE) => OrderRefusal::NoDescriptors,
            _ => OrderRefusal::NoRegistry,
        }
    }

    /// Why an order makes no step where a lookup failed. Where the process has fewer descriptors than the run needs, the port
    /// mapper may have had none to answer with.
    pub fn of_lookup(error: LookupError, is_short: bool) -> OrderRefusal
        ensures descriptors { is_short ≡ true → is_silence error ≡ true → result ≡ NoDescriptors }
        ensures lookup { (is_short ≡ false) ⊎ (is_silence error ≡ false) → result ≡ Lookup error }
    {
        match error {
            LookupError::Limit
            | LookupError::Ended
            | LookupError::ReadFailed
            | LookupError::WriteFailed
                if is_short => OrderRefusal::NoDescriptors,
            _ => OrderRefusal::Lookup(error),
        }
    }

    /// The word that a program prints for it.
    pub fn name(self) -> &'static str
        ensures { result.now ≡ order_refusal_name self }
    {
        match self {
            OrderRefusal::NoRegistry => "NoRegistry",
            OrderRefusal::NoDescriptors => "NoDescriptors",
            OrderRefusal::Lookup(error) => error.name(),
            OrderRefusal::Step(error) => error.name(),
        }
    }
}

/// An order that made no `Dial` step.
#[derive(Clone, Copy)]
pub struct OrderFault {
    /// The number of the order, from 0 in the order of the file.
    pub number: u32,
    /// Why it made none.
    pub refusal: OrderRefusal,
}
