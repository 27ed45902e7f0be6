//! Reading a body: first the tag, then the layout that this side has for it.

ghost use Rattle.std.specs.Prelude.{Ok, IfOk, IfErr, IsErrOf, IsTrue};
ghost use Rattle.dist_messages.specs.Reading.{complement, reply, ack, status_of, has_name_tag, read};
ghost use Rattle.dist_messages.specs.{Spelling.Spells, Spelling.Fits, Causes.IsCause, declared.message.Message.Message, Answer.Answers, Views.message_of};

use crate::fields::{digest_at, u32_at};
use crate::message::{Message, Side};
use crate::message_error::MessageError;
use crate::message_view::MessageView;
use crate::reading_named::{read_new_challenge, read_new_name, read_old_challenge, read_old_name};
use crate::status::status_named;
use dist_names::Creation;
use std::alloc::Global;

#[tactic(auto, unfolding(crate::specs::Reading::complement))]
fn read_complement(bytes: &[u8]) -> Result<MessageView<'_>, MessageError>
    ensures exact { Answers message_of result (complement bytes.now) }
    ensures memory { ¬ (IsErrOf result MessageError.NoMemory) }
{
    let (high, rest) = u32_at(bytes)?;
    let (creation, behind) = u32_at(rest)?;
    if !behind.is_empty() {
        return Err(MessageError::Long);
    }
    Ok(MessageView::Complement {
        high,
        creation: Creation(creation),
    })
}

#[tactic(auto, unfolding(crate::specs::Reading::reply))]
fn read_reply(bytes: &[u8]) -> Result<MessageView<'_>, MessageError>
    ensures exact { Answers message_of result (reply bytes.now) }
    ensures memory { ¬ (IsErrOf result MessageError.NoMemory) }
{
    let (challenge, rest) = u32_at(bytes)?;
    let (digest, behind) = digest_at(rest)?;
    if !behind.is_empty() {
        return Err(MessageError::Long);
    }
    Ok(MessageView::Reply { challenge, digest })
}

#[tactic(auto, unfolding(crate::specs::Reading::ack))]
fn read_ack(bytes: &[u8]) -> Result<MessageView<'_>, MessageError>
    ensures exact { Answers message_of result (ack bytes.now) }
    ensures memory { ¬ (IsErrOf result MessageError.NoMemory) }
{
    let (digest, behind) = digest_at(bytes)?;
    if !behind.is_empty() {
        return Err(MessageError::Long);
    }
    Ok(MessageView::Ack { digest })
}

#[tactic(auto, unfolding(crate::specs::Reading::status_of))]
fn read_status(side: Side, text: &[u8]) -> Result<MessageView<'_>, MessageError>
    ensures exact { Answers message_of result (status_of side text.now) }
    ensures memory { ¬ (IsErrOf result MessageError.NoMemory) }
{
    let status = status_named(side, text).ok_or(MessageError::UnknownStatus)?;
    Ok(MessageView::Status(status))
}

/// The message that a body of this side spells, read in place: the same that [`decode`] returns, without a copy of the name. It
/// takes no memory, so it never returns `NoMemory`.
///
/// Refusals, in this order: `Empty`, `UnknownTag` (also for a tag of the other side), `Short`, `Long`, `UnknownStatus` (also for
/// a status of the other side).
#[tactic(auto, unfolding(crate::specs::Reading::read))]
pub fn read_in_place(side: Side, body: &[u8]) -> Result<MessageView<'_>, MessageError>
    // No memory is needed.
    ensures memory { ¬ (IsErrOf result MessageError.NoMemory) }

    // The message or the refusal, computed from left to right.
    ensures exact { Answers message_of result (read side body.now) }
{
    let [tag, rest @ ..] = body else {
        return Err(MessageError::Empty);
    };
    match (side, *tag) {
        (_, b's') => read_status(side, rest),
        (Side::Dialler, b'n') => read_old_name(rest),
        (Side::Dialler, b'N') => read_new_name(rest),
        (Side::Dialler, b'c') => read_complement(rest),
        (Side::Dialler, b'r') => read_reply(rest),
        (Side::Acceptor, b'n') => read_old_challenge(rest),
        (Side::Acceptor, b'N') => read_new_challenge(rest),
        (Side::Acceptor, b'a') => read_ack(rest),
        _ => Err(MessageError::UnknownTag),
    }
}

fn read_message(alloc: Global, side: Side, body: &[u8]) -> Result<Message, MessageError>
    ensures exact { Answers (λ m. m) result (read side body.now) }
    ensures memory { IsErrOf result MessageError.NoMemory → IsTrue (has_name_tag body.now) }
{
    match read_in_place(side, body) {
        Ok(view) => Ok(view.to_message(alloc)?),
        Err(error) => Err(error),
    }
}

/// The message that a body of this side spells. Memory is taken for a name alone, and never more than the body has bytes.
///
/// Refusals, in this order: `Empty`, `UnknownTag` (also for a tag of the other side), `Short`, `Long`, `UnknownStatus` (also for
/// a status of the other side), `NoMemory`. At most one of the causes but the last holds of a body, and each has its refusal
/// ([`causes_of_refusals`](crate::causes_of_refusals)), so that `found`, `only`, `cause` and `memory` determine the answer.
pub fn decode(alloc: Global, side: Side, body: &[u8]) -> Result<Message, MessageError>
    // The body spells the message that is returned.
    ensures found { IfOk result (λ m. Spells side m body.now) }

    // A message that the body spells is returned, unless memory runs out.
    ensures only { (m : Message) → Fits m → Spells side m body.now → Answers (λ x. x) result (Ok m) }

    // The cause that is returned holds of the body.
    ensures cause { IfErr result (λ e. IsCause side body.now e) }

    // Memory is needed for a name alone.
    ensures memory { IsErrOf result MessageError.NoMemory → IsTrue (has_name_tag body.now) }

    // The message or the refusal, computed from left to right.
    ensures exact { Answers (λ m. m) result (read side body.now) }
{
    read_message(alloc, side, body)
}
