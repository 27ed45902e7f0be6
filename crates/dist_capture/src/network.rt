//! IP packets.

ghost use Rattle.std.specs.Prelude.{◌≡◌, ◌≤◌, ◌^◌, ◌<◌, ◌-◌, length, take, drop};
ghost use Rattle.dist_capture.specs.Network.{numbers_of, is_vxlan, unread, carried, in_ipv4, is_extension, upper, in_ipv6, segment_in, shown};

use crate::parts::{part, two};
use crate::skipped::Skipped;
use std::net::IpAddr;

// The protocols that are TCP and UDP, and the header of a fragment.
const TCP: u8 = 6;

const UDP: u8 = 17;

const FRAGMENT: u8 = 44;
// The UDP port of VXLAN.
const VXLAN: u16 = 4789;

/// An IP packet that carries a TCP segment.
#[derive(Clone, Copy)]
pub struct Datagram<'a> {
    pub source: IpAddr,
    pub target: IpAddr,
    // How many bytes the segment has.
    pub size: usize,
    // Those that were captured.
    pub segment: &'a [u8],
}

// Whether what a protocol carries, from a place on, is a UDP datagram to the port of VXLAN.
fn is_vxlan(protocol: u8, at: usize, bytes: &[u8]) -> bool
    ensures { result ≡ is_vxlan protocol at bytes.now }
{
    protocol == UDP && bytes.len() >= 4 && at <= bytes.len() - 4 && two(bytes, at + 2) == VXLAN
}

// Why what another protocol than TCP carries, from a place on, gives no segment.
fn unread(protocol: u8, at: usize, bytes: &[u8]) -> Skipped
    ensures { result ≡ unread protocol at bytes.now }
{
    if is_vxlan(protocol, at, bytes) {
        return Skipped::Vxlan;
    }
    match protocol {
        47 => Skipped::Gre,
        4 | 41 => Skipped::IpInIp,
        _ => Skipped::OtherProtocol,
    }
}

// The packet whose segment is the bytes from a place to an end.
fn carry(
    source: IpAddr,
    target: IpAddr,
    at: usize,
    end: usize,
    bytes: &[u8],
) -> Result<Datagram<'_>, Skipped>
    ensures { shown result ≡ carried (numbers_of source) (numbers_of target) at end bytes.now }
{
    if end < at {
        return Err(Skipped::Malformed);
    }
    if bytes.len() < at {
        return Err(Skipped::CutShort);
    }
    let size = end - at;
    let captured = &bytes[at..];
    Ok(Datagram {
        source,
        target,
        size,
        segment: &captured[..size.min(captured.len())],
    })
}

fn in_ipv4(bytes: &[u8]) -> Result<Datagram<'_>, Skipped>
    ensures { shown result ≡ in_ipv4 bytes.now }
{
    if bytes.len() < 20 {
        return Err(Skipped::CutShort);
    }
    let header = 4 * (bytes[0] % 16) as usize;
    if header < 20 {
        return Err(Skipped::Malformed);
    }
    if two(bytes, 6) % 0x4000 != 0 {
        return Err(Skipped::Fragment);
    }
    if bytes[9] != TCP {
        return Err(unread(bytes[9], header, bytes));
    }
    let source: [u8; 4] = part(bytes, 12);
    let target: [u8; 4] = part(bytes, 16);
    carry(
        IpAddr::from(source),
        IpAddr::from(target),
        header,
        two(bytes, 2) as usize,
        bytes,
    )
}

// Whether this is the type of an extension header that is walked over.
fn is_extension(header: u8) -> bool
    ensures { result ≡ is_extension header }
{
    header == 0 || header == 43 || header == 60
}

// The type and the place of the header behind the extension headers.
fn upper(bytes: &[u8], first: u8) -> Result<(u8, usize), Skipped>
    ensures { result ≡ upper 4 bytes.now first 40 }
{
    let mut header = first;
    let mut at = 40usize;
    for _ in 0..4u8 {
        if !is_extension(header) {
            return Ok((header, at));
        }
        if bytes.len() < at + 2 {
            return Err(Skipped::CutShort);
        }
        header = bytes[at];
        at = at + 8 + 8 * bytes[at + 1] as usize;
    }
    Ok((header, at))
}

fn in_ipv6(bytes: &[u8]) -> Result<Datagram<'_>, Skipped>
    ensures { shown result ≡ in_ipv6 bytes.now }
{
    if bytes.len() < 40 {
        return Err(Skipped::CutShort);
    }
    let (header, at) = upper(bytes, bytes[6])?;
    if header == FRAGMENT {
        return Err(Skipped::Fragment);
    }
    if is_extension(header) {
        return Err(Skipped::ManyHeaders);
    }
    if header != TCP {
        return Err(unread(header, at, bytes));
    }
    let source: [u8; 16] = part(bytes, 8);
    let target: [u8; 16] = part(bytes, 24);
    carry(
        IpAddr::from(source),
        IpAddr::from(target),
        at,
        40 + two(bytes, 4) as usize,
        bytes,
    )
}

/// The segment of an IP packet.
pub fn segment_in(bytes: &[u8]) -> Result<Datagram<'_>, Skipped>
    ensures { shown result ≡ segment_in bytes.now }
{
    if bytes.is_empty() {
        return Err(Skipped::CutShort);
    }
    match bytes[0] / 16 {
        4 => in_ipv4(bytes),
        6 => in_ipv6(bytes),
        _ => Err(Skipped::OtherProtocol),
    }
}
