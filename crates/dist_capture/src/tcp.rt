//! TCP segments of packets.

ghost use Rattle.std.specs.Prelude.{◌≡◌, ◌≤◌, length};
ghost use Rattle.dist_capture.specs.{Network.view_of as carried_by, Tcp.ack_number, Tcp.is_set, Tcp.said_by, Tcp.segment_of, Tcp.shown};

use crate::link::datagram_of;
use crate::network::{Datagram, segment_in};
use crate::parts::{four, two};
use crate::segment::Endpoint;
use crate::skipped::Skipped;

/// A TCP segment in the bytes of its packet.
#[derive(Clone, Copy)]
pub struct FoundSegment<'a> {
    pub from: Endpoint,
    pub to: Endpoint,
    pub sequence: u32,
    pub acknowledges: Option<u32>,
    pub window: u16,
    pub is_fin: bool,
    pub is_syn: bool,
    pub is_reset: bool,
    pub is_ack: bool,
    /// What was captured of the payload, from its first byte on.
    pub payload: &'a [u8],
    /// How many bytes of the payload the capture cut off.
    pub missing: usize,
}

// The number that a header acknowledges.
fn ack_number(header: &[u8]) -> Option<u32>
    requires { 20 ≤ length header.now }
    ensures { result ≡ ack_number header.now }
{
    if header[13] / 16 % 2 == 1 {
        Some(four(header, 8))
    } else {
        None
    }
}

// The segment that an IP packet carries.
fn said_by(datagram: Datagram<'_>) -> Result<FoundSegment<'_>, Skipped>
    ensures { shown result ≡ said_by (carried_by datagram.entry) }
{
    let bytes = datagram.segment;
    if datagram.size < 20 {
        return Err(Skipped::Malformed);
    }
    if bytes.len() < 20 {
        return Err(Skipped::CutShort);
    }
    let header = 4 * (bytes[12] / 16) as usize;
    if header < 20 || datagram.size < header {
        return Err(Skipped::Malformed);
    }
    if bytes.len() < header {
        return Err(Skipped::CutShort);
    }
    let flags = bytes[13];
    Ok(FoundSegment {
        from: Endpoint {
            address: datagram.source,
            port: two(bytes, 0),
        },
        to: Endpoint {
            address: datagram.target,
            port: two(bytes, 2),
        },
        sequence: four(bytes, 4),
        acknowledges: ack_number(bytes),
        window: two(bytes, 14),
        is_fin: flags % 2 == 1,
        is_syn: flags / 2 % 2 == 1,
        is_reset: flags / 4 % 2 == 1,
        is_ack: flags / 16 % 2 == 1,
        payload: &bytes[header..],
        missing: datagram.size.saturating_sub(bytes.len()),
    })
}

/// The TCP segment of a packet of a link of this type, or why it has none.
#[tactic(auto, unfolding(crate::specs::Tcp::segment_of))]
pub fn segment_of(link: u32, bytes: &[u8]) -> Result<FoundSegment<'_>, Skipped>
    ensures { shown result ≡ segment_of link bytes.now }
{
    said_by(segment_in(datagram_of(link, bytes)?)?)
}
