//! Units of a capture: headers, blocks, packets.

ghost use Rattle.std.specs.Prelude.{◌≡◌, ◌+◌, ◌≤◌, length, slice_get, IfOk};
ghost use Rattle.dist_capture.specs.Formats.{is_section, section_order, awaited_block, awaited_packet, awaited_first, awaited_length, packet};
ghost use Rattle.dist_capture.specs.Formats.{file_header, pcap_packet, clock_of, tick_of, interface_unit, stamp, enhanced_unit, captured_length};
ghost use Rattle.dist_capture.specs.Formats.{simple, block, first_unit, unit_of, IsWithin};

use crate::fault::CaptureFault;
use crate::format::{ByteOrder, Format, Interface, magic};
use crate::parts::four;

// The longest unit that is taken, in bytes. Our own choice.
const MOST: u32 = 16_777_216;
// The most interfaces of a section. Our own choice.
const MOST_INTERFACES: usize = 65_536;
// How many options of an interface are looked at. Our own choice: there are fewer than 20 kinds.
const MOST_OPTIONS: u32 = 64;

/// What a unit of a capture says.
#[derive(Clone, Copy)]
pub enum Unit {
    // The capture is a file of pcap, whether it counts nanoseconds, and the type of its link.
    File(ByteOrder, bool, u32),
    // A section of pcapng begins.
    Section(ByteOrder),
    // The next interface of the section.
    Described(Interface),
    // A packet: when it was captured, the type of its link, and where its bytes are in the unit.
    Packet {
        time: u64,
        link: u32,
        at: usize,
        len: usize,
    },
    // Something else.
    Other,
}

// Whether this is the block with which a section begins.
fn is_section(bytes: &[u8]) -> bool
    requires { 4 ≤ length bytes.now }
    ensures { result ≡ is_section bytes.now }
{
    four(bytes, 0) == 0x0a0d0d0a
}

fn section_order(bytes: &[u8]) -> Result<ByteOrder, CaptureFault>
    requires { 12 ≤ length bytes.now }
    ensures { result ≡ section_order bytes.now }
{
    match four(bytes, 8) {
        0x1a2b3c4d => Ok(ByteOrder::Big),
        0x4d3c2b1a => Ok(ByteOrder::Little),
        _ => Err(CaptureFault::Malformed),
    }
}

fn awaited_block(order: ByteOrder, bytes: &[u8]) -> Result<usize, CaptureFault>
    ensures { result ≡ awaited_block order bytes.now }
{
    if bytes.len() < 12 {
        return Ok(12);
    }
    let own = if is_section(bytes) {
        section_order(bytes)?
    } else {
        order
    };
    let len = own.number(bytes, 4);
    if len < 12 || len % 4 != 0 {
        return Err(CaptureFault::Malformed);
    }
    if len > MOST {
        return Err(CaptureFault::TooLong);
    }
    Ok(len as usize)
}

fn awaited_packet(order: ByteOrder, bytes: &[u8]) -> Result<usize, CaptureFault>
    ensures { result ≡ awaited_packet order bytes.now }
{
    if bytes.len() < 16 {
        return Ok(16);
    }
    let len = order.number(bytes, 8);
    if len > MOST {
        return Err(CaptureFault::TooLong);
    }
    Ok(16 + len as usize)
}

fn awaited_first(bytes: &[u8]) -> Result<usize, CaptureFault>
    ensures { result ≡ awaited_first bytes.now }
{
    if bytes.len() < 4 {
        return Ok(4);
    }
    if is_section(bytes) {
        return awaited_block(ByteOrder::Big, bytes);
    }
    match magic(four(bytes, 0)) {
        Some(_) => Ok(24),
        None => Err(CaptureFault::NotACapture),
    }
}

/// How many bytes the next unit has, or, until that is known, have to come before it is.
pub fn awaited_length(format: Format, bytes: &[u8]) -> Result<usize, CaptureFault>
    ensures { result ≡ awaited_length format bytes.now }
{
    match format {
        Format::Unknown => awaited_first(bytes),
        Format::Pcap(order, ..) => awaited_packet(order, bytes),
        Format::Pcapng(order) => awaited_block(order, bytes),
    }
}

// A packet, whose bytes have to be in the room that its unit has for them.
fn packet(time: u64, link: u32, at: usize, len: usize, room: usize) -> Result<Unit, CaptureFault>
    ensures { result ≡ packet time link at len room }
{
    if room < len {
        return Err(CaptureFault::Malformed);
    }
    Ok(Unit::Packet {
        time,
        link,
        at,
        len,
    })
}

fn file_header(bytes: &[u8]) -> Result<Unit, CaptureFault>
    ensures { result ≡ file_header bytes.now }
{
    if bytes.len() < 24 {
        return Err(CaptureFault::NotACapture);
    }
    match magic(four(bytes, 0)) {
        Some((order, nano)) => Ok(Unit::File(order, nano, order.number(bytes, 20) % 0x1_0000)),
        None => Err(CaptureFault::NotACapture),
    }
}

fn pcap_packet(order: ByteOrder, nano: bool, link: u32, bytes: &[u8]) -> Result<Unit, CaptureFault>
    ensures { result ≡ pcap_packet order nano link bytes.now }
{
    if bytes.len() < 16 {
        return Err(CaptureFault::Malformed);
    }
    let tick = if nano { 1 } else { 1000 };
    packet(
        1_000_000_000 * order.number(bytes, 0) as u64 + tick * order.number(bytes, 4) as u64,
        link,
        16,
        order.number(bytes, 8) as usize,
        bytes.len() - 16,
    )
}

// Which decimal fraction of a second an interface counts, by its options.
fn clock_of(order: ByteOrder, options: &[u8]) -> Result<u8, CaptureFault>
    ensures { result ≡ clock_of 64 order options.now }
{
    let mut rest = options;
    for _ in 0..MOST_OPTIONS {
        if rest.len() < 4 {
            return Ok(6);
        }
        if order.half(rest, 0) == 9 {
            if rest.len() < 5 {
                return Err(CaptureFault::Malformed);
            }
            return Ok(rest[4]);
        }
        let len = 4 + 4 * ((order.half(rest, 2) as usize + 3) / 4);
        let (_, behind) = rest.split_at(len.min(rest.len()));
        rest = behind;
    }
    Ok(6)
}

fn tick_of(digits: u8) -> Result<u64, CaptureFault>
    ensures { result ≡ tick_of digits }
{
    if digits > 9 {
        return Err(CaptureFault::UnknownClock);
    }
    let mut tick = 1u64;
    for _ in digits..9 {
        tick *= 10;
    }
    Ok(tick)
}

fn interface_unit(order: ByteOrder, bytes: &[u8]) -> Result<Unit, CaptureFault>
    ensures { result ≡ interface_unit order bytes.now }
{
    if bytes.len() < 20 {
        return Err(CaptureFault::Malformed);
    }
    let behind = &bytes[16..];
    let digits = clock_of(order, &behind[..bytes.len() - 20])?;
    let tick = tick_of(digits)?;
    Ok(Unit::Described(Interface {
        link: order.half(bytes, 8) as u32,
        tick,
        most: order.number(bytes, 12),
    }))
}

// The time of a packet, in units of its interface.
fn stamp(order: ByteOrder, bytes: &[u8]) -> u64
    requires { 20 ≤ length bytes.now }
    ensures { result ≡ stamp order bytes.now }
{
    0x1_0000_0000 * order.number(bytes, 12) as u64 + order.number(bytes, 16) as u64
}

fn interface_at(interfaces: &[Interface], which: usize) -> Option<Interface>
    ensures { result ≡ slice_get interfaces.now which }
{
    interfaces.get(which).copied()
}

// A packet that names its interface: by four bytes, in the blocks that are obsolete by two.
fn enhanced_unit(
    order: ByteOrder,
    is_obsolete: bool,
    interfaces: &[Interface],
    bytes: &[u8],
) -> Result<Unit, CaptureFault>
    ensures { result ≡ enhanced_unit order is_obsolete interfaces.now bytes.now }
{
    if bytes.len() < 32 {
        return Err(CaptureFault::Malformed);
    }
    let which = if is_obsolete {
        order.half(bytes, 8) as usize
    } else {
        order.number(bytes, 8) as usize
    };
    let Some(interface) = interface_at(interfaces, which) else {
        return Err(CaptureFault::Malformed);
    };
    packet(
        stamp(order, bytes).saturating_mul(interface.tick),
        interface.link,
        28,
        order.number(bytes, 20) as usize,
        bytes.len() - 32,
    )
}

// How many bytes of a packet were captured.
fn captured_length(most: u32, len: u32) -> u32
    ensures { result ≡ captured_length most len }
{
    if most == 0 { len } else { most.min(len) }
}

fn simple(order: ByteOrder, interfaces: &[Interface], bytes: &[u8]) -> Result<Unit, CaptureFault>
    ensures { result ≡ simple order interfaces.now bytes.now }
{
    if bytes.len() < 16 {
        return Err(CaptureFault::Malformed);
    }
    let Some(interface) = interface_at(interfaces, 0) else {
        return Err(CaptureFault::Malformed);
    };
    packet(
        0,
        interface.link,
        12,
        captured_length(interface.most, order.number(bytes, 8)) as usize,
        bytes.len() - 16,
    )
}

fn block(order: ByteOrder, interfaces: &[Interface], bytes: &[u8]) -> Result<Unit, CaptureFault>
    ensures { result ≡ block order interfaces.now bytes.now }
{
    if bytes.len() < 12 {
        return Err(CaptureFault::Malformed);
    }
    if is_section(bytes) {
        let own = section_order(bytes)?;
        return Ok(Unit::Section(own));
    }
    match order.number(bytes, 0) {
        1 if interfaces.len() >= MOST_INTERFACES => Err(CaptureFault::TooManyInterfaces),
        1 => interface_unit(order, bytes),
        3 => simple(order, interfaces, bytes),
        2 => enhanced_unit(order, true, interfaces, bytes),
        6 => enhanced_unit(order, false, interfaces, bytes),
        _ => Ok(Unit::Other),
    }
}

fn first_unit(bytes: &[u8]) -> Result<Unit, CaptureFault>
    ensures { result ≡ first_unit bytes.now }
{
    if bytes.len() < 4 {
        return Err(CaptureFault::NotACapture);
    }
    if is_section(bytes) {
        block(ByteOrder::Big, &[], bytes)
    } else {
        file_header(bytes)
    }
}

/// What a whole unit says.
pub fn unit_of(format: Format, interfaces: &[Interface], bytes: &[u8]) -> Result<Unit, CaptureFault>
    ensures value { result ≡ unit_of format interfaces.now bytes.now }
    ensures within { IfOk result (λ u. IsWithin u (length bytes.now)) }
{
    match format {
        Format::Unknown => first_unit(bytes),
        Format::Pcap(order, nano, link) => pcap_packet(order, nano, link, bytes),
        Format::Pcapng(order) => block(order, interfaces, bytes),
    }
}
