//! Writing the messages that have a name, each behind the bytes that are there. A call fails only where memory runs out.

ghost use Rattle.std.specs.Prelude.{◌≡◌, ◌≤◌, ◌++◌, length, OnOk};
ghost use Rattle.dist_messages.specs.declared.message.Message.TheVariants as message;
ghost use Rattle.dist_messages.specs.Canonical.{canonical};

use crate::pieces::{put_32, put_64, put_name, put_version};
use dist_names::{Creation, Flags};
use std::alloc::AllocError;

/// An old name, with version 5. The name goes on to the end of the body.
pub fn put_old_name(body: &mut Vec<u8>, flags: u32, name: &[u8]) -> Result<(), AllocError>
    ensures { OnOk result (body.new.items ≡ body.old.items ++ canonical (message.OldName flags name.now)) }
{
    body.push(b'n')?;
    put_version(body)?;
    put_32(body, flags)?;
    body.extend_from_slice(name)
}

/// A new name, with nothing behind the name, which has at most 255 bytes.
pub fn put_new_name(
    body: &mut Vec<u8>,
    flags: Flags,
    creation: Creation,
    name: &[u8],
) -> Result<(), AllocError>
    // A message is checked before it is written.
    requires { length name.now ≤ 255 }
    ensures { OnOk result (body.new.items ≡ body.old.items ++ canonical (message.NewName flags creation name.now)) }
{
    body.push(b'N')?;
    put_64(body, flags.0)?;
    put_32(body, creation.0)?;
    put_name(body, name)
}

/// An old challenge, with version 5. The name goes on to the end of the body.
pub fn put_old_challenge(
    body: &mut Vec<u8>,
    flags: u32,
    challenge: u32,
    name: &[u8],
) -> Result<(), AllocError>
    ensures { OnOk result (body.new.items ≡ body.old.items ++ canonical (message.OldChallenge flags challenge name.now)) }
{
    body.push(b'n')?;
    put_version(body)?;
    put_32(body, flags)?;
    put_32(body, challenge)?;
    body.extend_from_slice(name)
}

/// A new challenge, with nothing behind its name, which has at most 255 bytes.
pub fn put_new_challenge(
    body: &mut Vec<u8>,
    flags: Flags,
    challenge: u32,
    creation: Creation,
    name: &[u8],
) -> Result<(), AllocError>
    // A message is checked before it is written.
    requires { length name.now ≤ 255 }
    ensures { OnOk result (body.new.items ≡ body.old.items ++ canonical (message.NewChallenge flags challenge creation name.now)) }
{
    body.push(b'N')?;
    put_64(body, flags.0)?;
    put_32(body, challenge)?;
    put_32(body, creation.0)?;
    put_name(body, name)
}
