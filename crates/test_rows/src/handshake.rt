//! Handshake messages: `read SIDE BODY` reads a body sent by this side, the dialler (`D`) or the acceptor (`A`); `write SIDE BODY
//! OTHER` writes the message that was read, as the other side would.

use crate::digits::{bytes_in, put_bytes, word};
use crate::refusals::put_refused;
use dist_messages::{Message, Side, decode, encode};
use std::alloc::Global;
use std::fmt::Write;

/// Reports the message in words, the body that is written, or the refusal.
pub fn put_message(alloc: Global, printed: &mut String, case: &str) -> Option<()> {
    let body = bytes_in(alloc, word(case, 2))?;
    match decode(alloc, side_of(word(case, 1)), &body) {
        Ok(message) => put_again(alloc, printed, &message, word(case, 3)),
        Err(why) => put_refused(printed, &why),
    }
}

fn side_of(word: &str) -> Side {
    if word == "D" {
        Side::Dialler
    } else {
        Side::Acceptor
    }
}

fn put_again(alloc: Global, printed: &mut String, message: &Message, side: &str) -> Option<()> {
    if side.is_empty() {
        return put_words(alloc, printed, message);
    }
    match encode(alloc, side_of(side), message) {
        Ok(body) => put_bytes(alloc, printed, &body),
        Err(why) => put_refused(printed, &why),
    }
}

// Reports the kind of a message, its flags, its challenge and its creation, each 0 if it has none; how many bytes its name or its digest
// has, and these bytes.
fn put_words(alloc: Global, printed: &mut String, message: &Message) -> Option<()> {
    if let Message::Status(status) = message {
        return write!(printed, "status {status:?}").ok();
    }
    let (kind, flags, challenge, creation) = numbers_of(message);
    let back = back_of(message);
    let len = back.len();
    write!(printed, "{kind} {flags:x} {challenge} {creation} {len} ").ok()?;
    put_bytes(alloc, printed, back)
}

fn numbers_of(message: &Message) -> (&'static str, u64, u32, u32) {
    match message {
        Message::OldName { flags, .. } => ("old_name", *flags as u64, 0, 0),
        Message::NewName {
            flags,
            creation,
            ..
        } => ("new_name", flags.0, 0, creation.0),
        Message::OldChallenge {
            flags,
            challenge,
            ..
        } => ("old_challenge", *flags as u64, *challenge, 0),
        Message::NewChallenge {
            flags,
            challenge,
            creation,
            ..
        } => ("new_challenge", flags.0, *challenge, creation.0),
        Message::Complement { high, creation } => ("complement", *high as u64, 0, creation.0),
        Message::Reply { challenge, .. } => ("reply", 0, *challenge, 0),
        Message::Ack { .. } | Message::Status(_) => ("ack", 0, 0, 0),
    }
}

// The name or the digest of a message, if it has one.
fn back_of(message: &Message) -> &[u8] {
    match message {
        Message::OldName { name, .. }
        | Message::NewName { name, .. }
        | Message::OldChallenge { name, .. }
        | Message::NewChallenge { name, .. } => name.as_slice(),
        Message::Reply { digest, .. } | Message::Ack { digest } => digest.as_slice(),
        Message::Complement { .. } | Message::Status(_) => &[],
    }
}
