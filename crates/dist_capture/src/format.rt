//! Formats of captures.

ghost use Rattle.std.specs.Prelude.{◌≡◌, ◌+◌, ◌≤◌, length};
ghost use Rattle.dist_capture.specs.Formats.{number, half, magic};

use crate::parts::part;

/// The order of the bytes of a number.
#[derive(Clone, Copy)]
pub enum ByteOrder {
    Big,
    Little,
}

impl ByteOrder {
    /// The number in four bytes.
    pub fn number(self, bytes: &[u8], at: usize) -> u32
        requires { at + 4 ≤ length bytes.now }
        ensures { result ≡ number self at bytes.now }
    {
        match self {
            ByteOrder::Big => u32::from_be_bytes(part(bytes, at)),
            ByteOrder::Little => u32::from_le_bytes(part(bytes, at)),
        }
    }

    /// The number in two bytes.
    pub fn half(self, bytes: &[u8], at: usize) -> u16
        requires { at + 2 ≤ length bytes.now }
        ensures { result ≡ half self at bytes.now }
    {
        match self {
            ByteOrder::Big => u16::from_be_bytes(part(bytes, at)),
            ByteOrder::Little => u16::from_le_bytes(part(bytes, at)),
        }
    }
}

/// Where packets were captured.
#[derive(Clone, Copy)]
pub struct Interface {
    // The type of its link.
    pub link: u32,
    // How many nanoseconds its clock counts at once.
    pub tick: u64,
    // How many bytes of a packet are captured; 0 for all.
    pub most: u32,
}

/// How a capture goes on.
#[derive(Clone, Copy)]
pub enum Format {
    // Nothing was read.
    Unknown,
    // A file of pcap, whether it counts nanoseconds (or microseconds), and the type of its link.
    Pcap(ByteOrder, bool, u32),
    Pcapng(ByteOrder),
}

/// The order of a file of pcap, and whether it counts nanoseconds, by its first four bytes.
pub fn magic(number: u32) -> Option<(ByteOrder, bool)>
    ensures { result ≡ magic number }
{
    match number {
        0xa1b2c3d4 => Some((ByteOrder::Big, false)),
        0xa1b23c4d => Some((ByteOrder::Big, true)),
        0xd4c3b2a1 => Some((ByteOrder::Little, false)),
        0x4d3cb2a1 => Some((ByteOrder::Little, true)),
        _ => None,
    }
}
