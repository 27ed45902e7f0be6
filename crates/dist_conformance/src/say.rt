//! What is said in a step.

use crate::digests::digest_to_say;
use crate::shapes::FieldForm;
use crate::steps::{SaidField, SaidPart, SaidValue, Saying};
use dist_names::Flags;
use dist_secret::Cookie;
use std::alloc::{AllocError, Global};

/// A number that came. Who plays a talk keeps one behind each demand that was kept in which one came, in order.
#[derive(Clone, Copy)]
pub struct Learned {
    /// The connection.
    pub conn: u8,
    /// The challenge of a node, or a creation of 4 bytes that a port mapper gave.
    pub number: u32,
    /// The flags of a challenge.
    pub flags: Option<Flags>,
}

// Appends bytes behind their length, as its 2 bytes can count it.
fn put_sized(bytes: &mut Vec<u8>, text: &[u8]) -> Result<(), AllocError> {
    let len = (text.len() % 65536) as u16;
    bytes.extend_from_slice(&len.to_be_bytes())?;
    bytes.extend_from_slice(text)
}

/// Appends a field of this form and value.
pub fn put_field(bytes: &mut Vec<u8>, form: FieldForm, value: &[u8]) -> Result<(), AllocError> {
    match form {
        FieldForm::Tag(tag) => bytes.extend_from_slice(&[tag]),
        FieldForm::Sized => put_sized(bytes, value),
        FieldForm::NotZero | FieldForm::Fixed(_) | FieldForm::Rest => bytes.extend_from_slice(
            value,
        ),
    }
}

/// Appends a message whose fields have these bytes, without its last ones, and with the others behind it.
pub fn put_message(
    alloc: Global,
    bytes: &mut Vec<u8>,
    part: &SaidPart,
    fields: &[u8],
) -> Result<(), AllocError> {
    let kept = &fields[..fields.len().saturating_sub(part.less)];
    let mut body = Vec::from_slice(alloc, kept)?;
    body.extend_from_slice(part.extra.as_slice())?;
    if part.is_framed {
        put_sized(bytes, &body)
    } else {
        bytes.extend_from_slice(&body)
    }
}

// What is known where something is said.
#[derive(Clone, Copy)]
struct TalkMemory<'a> {
    // The number that came last on the connection.
    last: u32,
    // The number that came first in the talk.
    first: u32,
    cookie: &'a Cookie,
}

// Appends a field, if it can be said: there is a digest of its kind.
fn put_said(
    bytes: &mut Vec<u8>,
    field: &SaidField,
    memory: &TalkMemory<'_>,
) -> Result<bool, AllocError> {
    match &field.value {
        SaidValue::Bytes(value) => put_field(bytes, field.form, value.as_slice())?,
        SaidValue::Digest(kind, challenge) => {
            let challenge = challenge.unwrap_or(memory.last);
            match digest_to_say(*kind, memory.cookie, challenge, memory.first) {
                Some(digest) => put_field(bytes, field.form, &digest)?,
                None => return Ok(false),
            }
        }
        SaidValue::Last => put_field(bytes, field.form, &memory.last.to_be_bytes())?,
    }
    Ok(true)
}

// Appends a message, if all its fields can be said.
fn put_part(
    alloc: Global,
    bytes: &mut Vec<u8>,
    part: &SaidPart,
    memory: &TalkMemory<'_>,
) -> Result<bool, AllocError> {
    let mut fields = Vec::new(alloc);
    for field in part.fields.as_slice() {
        if !put_said(&mut fields, field, memory)? {
            return Ok(false);
        }
    }
    put_message(alloc, bytes, part, &fields)?;
    Ok(true)
}

/// The bytes of a step `say` on this connection, by the cookie of the node under test and the numbers that came in this talk.
///
/// `None`: the step cuts them behind so many bytes, and there are no more than that, or it asks for a digest that this challenge has not
/// (`behindzero`); the talk cannot be played.
pub fn bytes_to_say(
    alloc: Global,
    saying: &Saying,
    conn: u8,
    learned: &[Learned],
    cookie: &Cookie,
) -> Result<Option<Vec<u8>>, AllocError> {
    let last = learned.iter().rfind(|one| one.conn == conn);
    let memory = TalkMemory {
        last: last.map_or(0, |one| one.number),
        first: learned.first().map_or(0, |one| one.number),
        cookie,
    };
    let mut bytes = Vec::new(alloc);
    for part in saying.parts.as_slice() {
        if !put_part(alloc, &mut bytes, part, &memory)? {
            return Ok(None);
        }
    }
    if let Some(most) = saying.cut {
        if bytes.len() <= most as usize {
            return Ok(None);
        }
        bytes.truncate(most as usize);
    }
    Ok(Some(bytes))
}
