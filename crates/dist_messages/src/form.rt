//! The three forms of a handshake.

/// How the two sides of a handshake speak. Source: ERTS User's Guide, Distribution Protocol, Distribution Handshake.
#[derive(Clone, Copy, Debug, PartialEq, Eq)]
pub enum Form {
    /// Opened by a name with tag `N` and challenged with tag `N`. Both carry 64 bits of flags and a creation.
    New,
    /// Opened by a name with tag `n` and challenged with tag `N`, where both know version 6. A complement follows the
    /// challenge, with the rest of the flags and the creation of the side that dialled.
    Old,
    /// Opened by a name with tag `n` and challenged with tag `n`, where one side knows version 5 alone. Each carries 32 bits of
    /// flags, and neither carries a creation.
    Five,
}
