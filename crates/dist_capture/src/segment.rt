//! TCP segments.

use std::net::IpAddr;

/// One end of a TCP connection.
#[derive(Clone, Copy, PartialEq, Eq, PartialOrd, Ord, Hash)]
pub struct Endpoint {
    pub address: IpAddr,
    pub port: u16,
}

/// A TCP segment.
#[derive(Drop)]
pub struct Segment {
    /// When it was captured, in nanoseconds since 1970; 0 where the capture has no times.
    pub time: u64,
    pub from: Endpoint,
    pub to: Endpoint,
    /// The sequence number of the first byte of the payload, or of the SYN.
    pub sequence: u32,
    /// The next sequence number that the sender awaits from the other side, in a segment with ACK.
    pub acknowledges: Option<u32>,
    /// How many bytes the sender is ready to take, not scaled: a segment behind a SYN may count in greater units (RFC 7323, 2).
    pub window: u16,
    pub is_syn: bool,
    pub is_ack: bool,
    pub is_fin: bool,
    pub is_reset: bool,
    /// What was captured of the payload, from its first byte on.
    pub payload: Vec<u8>,
    /// How many bytes of the payload the capture cut off.
    pub missing: usize,
}
