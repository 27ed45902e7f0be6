//! With which names a node is asked of a body: with the one in it beside those in its list, where a form stands for it.
ghost use Rattle.std.specs.{Prelude.◌≡◌, Prelude.IfOk, Option.option_or};
ghost use Rattle.dist_c_guest.specs.Forms.{allowed_names, name_in, sent_name};

use crate::forms::Forms;
use dist_core::NameList;
use dist_messages::{Message, MessageError, Side, decode};
use dist_names::{ByteString, NameError, NodeName};
use std::alloc::{AllocError, Global};

// The bytes that a message sends as a name to the side that accepts.
fn name_bytes(message: Message) -> Option<ByteString>
    ensures { result ≡ sent_name message }
{
    match message {
        Message::NewName {
            flags: _,
            creation: _,
            name,
        } => Some(name),
        Message::OldName { flags: _, name } => Some(name),
        _ => None,
    }
}

// The name that a body brings, where it brings one.
fn name_in(alloc: Global, body: &[u8]) -> Result<Option<NodeName>, AllocError>
    ensures { IfOk result (λ name. name ≡ name_in body.now) }
{
    let message = match decode(alloc, Side::Dialler, body) {
        Ok(message) => message,
        Err(MessageError::NoMemory) => return Err(AllocError),
        Err(_) => return Ok(None),
    };
    let Some(bytes) = name_bytes(message) else {
        return Ok(None);
    };
    match NodeName::new(alloc, bytes.as_slice()) {
        Ok(name) => Ok(Some(name)),
        Err(NameError::NoMemory) => Err(AllocError),
        Err(_) => Ok(None),
    }
}

/// The list with which a node is asked of this body, where it isn't the node's own.
pub fn wider(
    alloc: Global,
    forms: &Forms,
    allow: &Option<NameList>,
    body: &[u8],
) -> Result<Option<NameList>, AllocError>
    ensures { IfOk result (λ names. option_or names allow.now ≡ allowed_names forms.now body.now allow.now) }
{
    let Some(names) = allow else {
        return Ok(None);
    };
    if forms.is_empty() {
        return Ok(None);
    }
    let Some(name) = name_in(alloc, body)? else {
        return Ok(None);
    };
    if !forms.stand_for(&name) {
        return Ok(None);
    }
    let mut wider = names.try_clone(alloc)?;
    wider.add(name)?;
    Ok(Some(wider))
}
