//! The numbers by which C knows why bytes are no message of the port mapper.
ghost use Rattle.std.specs.Prelude.{◌≡◌};
ghost use Rattle.distnode_c.specs.Codes.{epmd_code};

use dist_epmd::EpmdError;

/// Of bytes that are no message of the port mapper.
pub fn epmd_code(error: EpmdError) -> u32
    ensures { result ≡ epmd_code error }
{
    match error {
        EpmdError::NoMemory => 3,
        EpmdError::Malformed => 40,
        EpmdError::Short => 41,
        EpmdError::Trailing => 42,
    }
}
