//! Whether a side writes a message: the side has that kind of message, and the name has at most 255 bytes.

ghost use Rattle.std.specs.Prelude.{◌≡◌};
ghost use Rattle.dist_messages.specs.{declared.message.Message.Message, Canonical.own_spelling, Canonical.spelling_with_name, Writing.AnswersCheck};
ghost use Rattle.dist_messages.specs.{Writing.name_in};
ghost use Rattle.dist_messages.specs.declared.message.Message.TheVariants as message;

use crate::message::{Message, Side, Status};
use crate::message_error::MessageError;

const LONGEST_NAME: usize = 255;

fn check_name(name: &[u8]) -> Result<(), MessageError>
    ensures { (m : Message) → name_in m ≡ name.now → AnswersCheck m result (spelling_with_name name.now m) }
{
    if name.len() > LONGEST_NAME {
        return Err(MessageError::BadName);
    }
    Ok(())
}

fn check_status(side: Side, status: Status) -> Result<(), MessageError>
    ensures { AnswersCheck (message.Status status) result (own_spelling side (message.Status status)) }
{
    if !status.is_said_by(side) {
        return Err(MessageError::UnknownStatus);
    }
    Ok(())
}

/// The first reason for which this side does not write the message, if there is one.
pub fn check(side: Side, message: &Message) -> Result<(), MessageError>
    ensures { AnswersCheck message.now result (own_spelling side message.now) }
{
    match (side, message) {
        (_, Message::Status(status)) => check_status(side, *status),
        (Side::Dialler, Message::OldName { name, .. }) => check_name(name.as_slice()),
        (Side::Dialler, Message::NewName { name, .. }) => check_name(name.as_slice()),
        (Side::Dialler, Message::Complement { .. }) => Ok(()),
        (Side::Dialler, Message::Reply { .. }) => Ok(()),
        (Side::Acceptor, Message::OldChallenge { name, .. }) => check_name(name.as_slice()),
        (Side::Acceptor, Message::NewChallenge { name, .. }) => check_name(name.as_slice()),
        (Side::Acceptor, Message::Ack { .. }) => Ok(()),
        _ => Err(MessageError::UnknownTag),
    }
}
