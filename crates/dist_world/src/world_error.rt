//! Why there is no world.
ghost use Rattle.std.specs.Prelude.{◌≡◌};
ghost use Rattle.dist_world.specs.Words.{refusal_name};

use thiserror::Error;

/// Why a list of setups makes no world: the first that holds is returned, in this order.
#[derive(Clone, Copy, Debug, PartialEq, Eq, Error)]
pub enum WorldError {
    /// Two of the setups have one name. The caller's fault.
    #[error("two nodes have one name")]
    SameName,
    /// Nothing else stood against it, and no memory was left.
    #[error("out of memory")]
    NoMemory,
}

impl WorldError {
    /// The variant's name, as a program prints it.
    pub fn name(self) -> &'static str
        ensures { result.now ≡ refusal_name self }
    {
        match self {
            WorldError::SameName => "SameName",
            WorldError::NoMemory => "NoMemory",
        }
    }
}
