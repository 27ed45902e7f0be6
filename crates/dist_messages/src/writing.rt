//! Writing a message: the one body that is written for each.

ghost use Rattle.std.specs.Prelude.{◌≡◌, ◌≤◌, ◌++◌, length, IfOk, OnOk};
ghost use Rattle.dist_messages.specs.{Answer.Answers, Canonical.canonical, Canonical.own_spelling, Writing.name_in};
ghost use Rattle.dist_messages.specs.declared.message.Message.TheVariants as message;

use crate::checking::check;
use crate::message::{Message, Side, Status};
use crate::message_error::MessageError;
use crate::pieces::put_32;
use crate::writing_named::{put_new_challenge, put_new_name, put_old_challenge, put_old_name};
use dist_names::Creation;
use std::alloc::{AllocError, Global};

/// The most bytes that a body has without its name: those of a reply.
const MOST_BESIDE_NAME: usize = 21;

/// Appends a complement.
pub fn put_complement(body: &mut Vec<u8>, high: u32, creation: Creation) -> Result<(), AllocError>
    ensures { OnOk result (body.new.items ≡ body.old.items ++ canonical (message.Complement high creation)) }
{
    body.push(b'c')?;
    put_32(body, high)?;
    put_32(body, creation.0)
}

/// Appends a reply to a challenge: the writer's own challenge, and the digest of 16 bytes.
pub fn put_reply(body: &mut Vec<u8>, challenge: u32, digest: &[u8]) -> Result<(), AllocError>
    ensures { OnOk result (body.new.items ≡ body.old.items ++ canonical (message.Reply challenge digest.now)) }
{
    body.push(b'r')?;
    put_32(body, challenge)?;
    body.extend_from_slice(digest)
}

/// Appends an acknowledgement: the digest of 16 bytes.
pub fn put_ack(body: &mut Vec<u8>, digest: &[u8]) -> Result<(), AllocError>
    ensures { OnOk result (body.new.items ≡ body.old.items ++ canonical (message.Ack digest.now)) }
{
    body.push(b'a')?;
    body.extend_from_slice(digest)
}

/// Appends a status.
pub fn put_status(body: &mut Vec<u8>, status: Status) -> Result<(), AllocError>
    ensures { OnOk result (body.new.items ≡ body.old.items ++ canonical (message.Status status)) }
{
    body.push(b's')?;
    body.extend_from_slice(status.text())
}

fn put_message(body: &mut Vec<u8>, message: &Message) -> Result<(), AllocError>
    // A message is checked before it is written.
    requires { length (name_in message.now) ≤ 255 }
    ensures { OnOk result (body.new.items ≡ body.old.items ++ canonical message.now) }
{
    match message {
        Message::OldName { flags, name } => put_old_name(body, *flags, name.as_slice()),
        Message::NewName {
            flags,
            creation,
            name,
        } => put_new_name(body, *flags, *creation, name.as_slice()),
        Message::Status(status) => put_status(body, *status),
        Message::OldChallenge {
            flags,
            challenge,
            name,
        } => put_old_challenge(body, *flags, *challenge, name.as_slice()),
        Message::NewChallenge {
            flags,
            challenge,
            creation,
            name,
        } => put_new_challenge(body, *flags, *challenge, *creation, name.as_slice()),
        Message::Complement { high, creation } => put_complement(body, *high, *creation),
        Message::Reply { challenge, digest } => put_reply(body, *challenge, digest),
        Message::Ack { digest } => put_ack(body, digest),
    }
}

// The name that a message has, and no bytes where it has none.
fn name_in(message: &Message) -> &[u8]
    ensures { result.now ≡ name_in message.now }
{
    match message {
        Message::OldName { name, .. } => name.as_slice(),
        Message::NewName { name, .. } => name.as_slice(),
        Message::OldChallenge { name, .. } => name.as_slice(),
        Message::NewChallenge { name, .. } => name.as_slice(),
        _ => &[],
    }
}

// The body of a message. Memory is taken once for all of it.
fn body_of(alloc: Global, message: &Message) -> Result<Vec<u8>, AllocError>
    // A message is checked before it is written.
    requires { length (name_in message.now) ≤ 255 }
    ensures { IfOk result (λ v. v.items ≡ canonical message.now) }
{
    let mut body = Vec::with_capacity(alloc, MOST_BESIDE_NAME + name_in(message).len())?;
    put_message(&mut body, message)?;
    Ok(body)
}

/// The one body that is written for a message of this side: version 5 in the old forms, no bytes after a name.
///
/// Refusals, in this order: `UnknownTag` (a message of the other side), `BadName` (a name of more than 255 bytes),
/// `UnknownStatus` (a status of the other side), `NoMemory`. What is written, and when each of the first three comes, is stated
/// in the words of the layouts in [`causes_of_writing`](crate::causes_of_writing).
pub fn encode(alloc: Global, side: Side, message: &Message) -> Result<Vec<u8>, MessageError>
    ensures exact { Answers (λ v. v.items) result (own_spelling side message.now) }
{
    check(side, message)?;
    Ok(body_of(alloc, message)?)
}
