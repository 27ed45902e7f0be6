/// The number that distinguishes the incarnations of a node. The port mapper gives it when a node registers.
///
/// Source: ERTS User's Guide, Distribution Protocol, EPMD Protocol.
#[derive(Clone, Copy, Debug, PartialEq, Eq)]
pub struct Creation(pub u32);
