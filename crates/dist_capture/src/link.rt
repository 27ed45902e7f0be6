//! Links.

ghost use Rattle.std.specs.Prelude.{◌≡◌, ◌+◌, ◌≤◌};
ghost use Rattle.dist_capture.specs.{Parts.view, Link.is_ip, Link.is_tag, Link.without_tag, Link.typed_packet, Link.datagram_of};

use crate::parts::{behind, two};
use crate::skipped::Skipped;

const ETHERNET: u32 = 1;

const COOKED: u32 = 113;

const COOKED_2: u32 = 276;
// BSD loopback: the family of addresses in the order of the host, and in network order.
const NULL: u32 = 0;

const LOOP: u32 = 108;

// Whether this is the EtherType of IPv4 or IPv6.
fn is_ip(ether_type: u16) -> bool
    ensures { result ≡ is_ip ether_type }
{
    ether_type == 0x0800 || ether_type == 0x86dd
}

// Whether this is the EtherType of a tag of 802.1Q or 802.1ad.
fn is_tag(ether_type: u16) -> bool
    ensures { result ≡ is_tag ether_type }
{
    ether_type == 0x8100 || ether_type == 0x88a8
}

// Without the tag that stands there.
fn without_tag(typed: &[u8]) -> &[u8]
    ensures { result.now ≡ without_tag typed.now }
{
    if typed.len() >= 4 && is_tag(two(typed, 0)) {
        &typed[4..]
    } else {
        typed
    }
}

// The IP packet at a place behind its EtherType.
fn typed_packet(bytes: &[u8], ether_type: usize, at: usize) -> Result<&[u8], Skipped>
    requires { ether_type + 2 ≤ at }
    ensures { view result ≡ typed_packet ether_type at bytes.now }
{
    if bytes.len() < at {
        return Err(Skipped::CutShort);
    }
    if !is_ip(two(bytes, ether_type)) {
        return Err(Skipped::OtherProtocol);
    }
    Ok(&bytes[at..])
}

/// The IP packet of a packet of a link of this type.
pub fn datagram_of(link: u32, bytes: &[u8]) -> Result<&[u8], Skipped>
    ensures { view result ≡ datagram_of link bytes.now }
{
    match link {
        ETHERNET => typed_packet(without_tag(without_tag(behind(bytes, 12)?)), 0, 2),
        COOKED => typed_packet(bytes, 14, 16),
        COOKED_2 => typed_packet(bytes, 0, 20),
        NULL | LOOP => behind(bytes, 4),
        12 | 101 | 228 | 229 => Ok(bytes),
        _ => Err(Skipped::UnknownLink(link)),
    }
}
