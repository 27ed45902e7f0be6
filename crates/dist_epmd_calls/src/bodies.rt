//! One frame, read from a stream.

ghost use Rattle.std.specs.Prelude.{◌≡◌, length};
ghost use Rattle.dist_epmd_calls.specs.{Bodies.HearsFrame, Steps.HearsLen};

use dist_names::ByteString;
use dist_stream::{Limited, Stream, TurnError};
use std::alloc::Global;

/// What came where a frame was awaited.
#[derive(Drop)]
pub enum Arrived {
    /// The body of a frame.
    Body(ByteString),
    /// The length of a frame, which is too long. Its body was not read.
    Long(u16),
    /// The stream gave no more inside the frame, for this fault.
    Stopped(TurnError),
    /// No memory was left for the body, and only the length was read.
    NoMemory,
}

// Reads the length of the next frame into the header.
fn read_len<S: Stream>(limited: &mut Limited<'_, S>, header: &mut [u8]) -> Result<u16, TurnError>
    requires { length header.old ≡ 2 }
    ensures hears { HearsLen (S.meaning limited.old.stream.now) (S.meaning limited.new.stream.now) limited.old.left limited.new.left result }
    ensures loan { limited.new.stream.ghost_name ≡ limited.old.stream.ghost_name }
{
    limited.read_exact(header)?;
    Ok(u16::from_be_bytes([header[0], header[1]]))
}

/// Reads the next frame, whose body has at most `most` bytes: its length in 2 bytes, and as many bytes. It reads no byte
/// behind the frame, and writes nothing.
pub fn read_frame<S: Stream>(alloc: Global, limited: &mut Limited<'_, S>, most: u16) -> Arrived
    ensures hears { HearsFrame (S.meaning limited.old.stream.now) (S.meaning limited.new.stream.now) limited.old.left limited.new.left most result }
    ensures loan { limited.new.stream.ghost_name ≡ limited.old.stream.ghost_name }
{
    let len = match read_len(limited, &mut [0; 2]) {
        Ok(len) => len,
        Err(fault) => return Arrived::Stopped(fault),
    };
    if len > most {
        return Arrived::Long(len);
    }
    let Ok(mut body) = vec![in alloc; 0u8; len as usize] else {
        return Arrived::NoMemory;
    };
    match limited.read_exact(&mut body) {
        Ok(()) => Arrived::Body(ByteString::from_vec(body)),
        Err(fault) => Arrived::Stopped(fault),
    }
}
