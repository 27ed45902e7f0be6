//! Short frames: a body of at most 65,535 bytes behind its length in 2 bytes, the greater byte first. The length does
//! not count itself.

ghost use Rattle.std.specs.Prelude.{◌≡◌, ◌↔◌, ◌≤◌, ◌^◌, length, option_copied, IfOk, IsErrOf};
ghost use Rattle.std.specs.Int.{w16};
ghost use Rattle.dist_frames.specs.{Stream.body_frame, Stream.first_body, Kept.frame_len};

use crate::frame_error::FrameError;
use std::alloc::Global;

/// The longest body that its length field of 2 bytes can count.
const MOST: usize = 65535;

/// How many bytes the frame at the front has, its length included; 2 until its length has come.
pub fn frame_len(pending: &[u8]) -> usize
    ensures { result ≡ frame_len pending.now }
{
    if pending.len() < 2 {
        return 2;
    }
    let (header, _) = pending.split_at(2);
    2 + u16::from_be_bytes([header[0], header[1]]) as usize
}

/// The body of the frame at the front, which has this many bytes, its length included.
#[tactic(auto, using(crate::proofs::Lengths::least, crate::proofs::Lengths::no_body, crate::proofs::Lengths::some_body))]
pub fn awaited_body(pending: &[u8], awaited: usize) -> Option<&[u8]>
    requires { awaited ≡ frame_len pending.now }
    ensures { option_copied result ≡ first_body w16 pending.now }
{
    if pending.len() < awaited {
        return None;
    }
    Some(&pending[2..awaited])
}

/// The body of the frame at the front, where it is whole.
pub fn first_body(bytes: &[u8]) -> Option<&[u8]>
    ensures { option_copied result ≡ first_body w16 bytes.now }
{
    awaited_body(bytes, frame_len(bytes))
}

/// The frame of a body: its length in 2 bytes, and the body.
///
/// Refused as `TooLong` above 65,535 bytes, then `NoMemory`.
pub fn write_short(alloc: Global, body: &[u8]) -> Result<Vec<u8>, FrameError>
    ensures ok { IfOk result (λ frame. frame.items ≡ body_frame w16 body.now) }
    ensures too_long { IsErrOf result FrameError.TooLong ↔ (2 ^ 16 ≤ length body.now) }
{
    if body.len() > MOST {
        return Err(FrameError::TooLong);
    }
    let mut frame = Vec::with_capacity(alloc, 2 + body.len())?;
    frame.extend_from_slice(&(body.len() as u16).to_be_bytes())?;
    frame.extend_from_slice(body)?;
    Ok(frame)
}
