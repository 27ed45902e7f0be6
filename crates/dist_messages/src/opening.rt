//! The two forms of the name that opens a handshake.

/// The form of the name that opens a handshake. Source: ERTS User's Guide, Distribution Protocol, Distribution Handshake.
#[derive(Clone, Copy, Debug, PartialEq, Eq)]
pub enum Opening {
    /// The name with tag `n`: 32 bits of flags, and a complement that follows the challenge.
    Old,
    /// The name with tag `N`: 64 bits of flags and a creation.
    New,
}
