use crate::message::NodeInfo;

/// A registration that was accepted: on which connection, what it says, and the creation that it got.
///
/// A `Registry` returns none of these. It is public because contracts speak of the registrations as a list of these.
#[derive(Drop)]
pub struct Row {
    /// The connection on which the node registered, and with which the registration ends.
    pub conn: u64,
    /// What the registration says of the node.
    pub info: NodeInfo,
    /// The creation that the node got, in 32 bits.
    pub creation: u32,
}
