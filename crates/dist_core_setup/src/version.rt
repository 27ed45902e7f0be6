//! The versions of the handshake.

/// The highest version of the handshake that a node knows (ERTS User's Guide, Distribution Protocol).
#[derive(Clone, Copy, Debug, PartialEq, Eq)]
pub enum Version {
    /// Version 5 alone: names and challenges with tag `n`, flags of 32 bits, no creation.
    Five,
    /// Version 6: names and challenges with tag `N`, beside those of version 5.
    Six,
}
