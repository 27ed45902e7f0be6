//! Writing packets: the length of a body in 4 bytes, the greater byte first, and the body. The length does not count
//! itself.

ghost use Rattle.std.specs.Prelude.{◌≡◌, ◌↔◌, ℕ, List, ◌≤◌, ◌^◌, ◌++◌, length, IfOk, IsErrOf};
ghost use Rattle.std.specs.Int.{w32};
ghost use Rattle.dist_frames.specs.Stream.{body_frame};
ghost use Rattle.dist_frames.specs.declared.packet_error.PacketError.TheVariants as error;

use crate::packet_error::PacketError;
use std::alloc::Global;

/// The longest body that its length field of 4 bytes can count.
const MOST: usize = 4294967295;

/// The 4 bytes that stand before a body of this many bytes. Whoever writes them and then the body has written the packet, and
/// copied nothing.
pub fn header(len: u32) -> [u8; 4]
    ensures { (body : List ℕ) → length body ≡ len → body_frame w32 body ≡ result ++ body }
{
    len.to_be_bytes()
}

/// The packet of a body.
///
/// Refused as `TooLong` above 4,294,967,295 bytes, then `NoMemory`.
pub fn write_packet(alloc: Global, body: &[u8]) -> Result<Vec<u8>, PacketError>
    ensures ok { IfOk result (λ packet. packet.items ≡ body_frame w32 body.now) }
    ensures too_long { IsErrOf result (error.TooLong (length body.now)) ↔ (2 ^ 32 ≤ length body.now) }
{
    if body.len() > MOST {
        return Err(PacketError::TooLong(body.len()));
    }
    let mut packet = Vec::with_capacity(alloc, body.len() + 4)?;
    packet.extend_from_slice(&header(body.len() as u32))?;
    packet.extend_from_slice(body)?;
    Ok(packet)
}
