//! The pieces that bodies are written from. Each is appended to the bytes that are there; that fails only where memory runs out.

ghost use Rattle.std.specs.{Prelude.◌≡◌, Prelude.◌≤◌, Prelude.◌++◌, Prelude.length, Prelude.OnOk, Int.w16, Int.w32, Int.w64, Int.to_be_bytes};
ghost use Rattle.dist_messages.specs.Canonical.{written_version};

use std::alloc::AllocError;

/// The version that is written.
const VERSION: u16 = 5;

/// A number of 2 bytes.
pub fn put_16(body: &mut Vec<u8>, number: u16) -> Result<(), AllocError>
    ensures { OnOk result (body.new.items ≡ body.old.items ++ to_be_bytes w16 number) }
{
    body.extend_from_slice(&number.to_be_bytes())
}

/// A number of 4 bytes.
pub fn put_32(body: &mut Vec<u8>, number: u32) -> Result<(), AllocError>
    ensures { OnOk result (body.new.items ≡ body.old.items ++ to_be_bytes w32 number) }
{
    body.extend_from_slice(&number.to_be_bytes())
}

/// A number of 8 bytes.
pub fn put_64(body: &mut Vec<u8>, number: u64) -> Result<(), AllocError>
    ensures { OnOk result (body.new.items ≡ body.old.items ++ to_be_bytes w64 number) }
{
    body.extend_from_slice(&number.to_be_bytes())
}

/// The version, in 2 bytes.
pub fn put_version(body: &mut Vec<u8>) -> Result<(), AllocError>
    ensures { OnOk result (body.new.items ≡ body.old.items ++ to_be_bytes w16 written_version) }
{
    put_16(body, VERSION)
}

/// A name behind its length in 2 bytes.
pub fn put_name(body: &mut Vec<u8>, name: &[u8]) -> Result<(), AllocError>
    // A message is checked before it is written.
    requires { length name.now ≤ 255 }
    ensures { OnOk result (body.new.items ≡ body.old.items ++ (to_be_bytes w16 (length name.now) ++ name.now)) }
{
    put_16(body, name.len() as u16)?;
    body.extend_from_slice(name)
}
