//! Reading the messages that have a name. Each takes the bytes after the tag, and leaves the name where it stands.

ghost use Rattle.std.specs.Prelude.{IsErrOf};
ghost use Rattle.dist_messages.specs.{Answer.Answers, Views.message_of, Reading.old_name, Reading.new_name, Reading.old_challenge, Reading.new_challenge};

use crate::fields::{bytes_of_len, u16_at, u32_at, u64_at};
use crate::message_error::MessageError;
use crate::message_view::MessageView;
use dist_names::{Creation, Flags};

/// An old name (tag `n` of the dialling side): version, lower half of the flags, and a name to the end of the body.
#[tactic(auto, unfolding(crate::specs::Reading::old_name))]
pub fn read_old_name(bytes: &[u8]) -> Result<MessageView<'_>, MessageError>
    ensures exact { Answers message_of result (old_name bytes.now) }
    ensures memory { ¬ (IsErrOf result MessageError.NoMemory) }
{
    let (_version, rest) = u16_at(bytes)?;
    let (flags, name) = u32_at(rest)?;
    Ok(MessageView::OldName { flags, name })
}

/// A new name (tag `N` of the dialling side): flags, creation, and a name behind its length. Bytes after the name are ignored.
#[tactic(auto, unfolding(crate::specs::Reading::new_name))]
pub fn read_new_name(bytes: &[u8]) -> Result<MessageView<'_>, MessageError>
    ensures exact { Answers message_of result (new_name bytes.now) }
    ensures memory { ¬ (IsErrOf result MessageError.NoMemory) }
{
    let (flags, rest) = u64_at(bytes)?;
    let (creation, rest) = u32_at(rest)?;
    let (len, rest) = u16_at(rest)?;
    let (name, _ignored) = bytes_of_len(len as usize, rest)?;
    Ok(MessageView::NewName {
        flags: Flags(flags),
        creation: Creation(creation),
        name,
    })
}

/// An old challenge (tag `n` of the accepting side): version, lower half of the flags, challenge, and a name to the end of the
/// body.
#[tactic(auto, unfolding(crate::specs::Reading::old_challenge))]
pub fn read_old_challenge(bytes: &[u8]) -> Result<MessageView<'_>, MessageError>
    ensures exact { Answers message_of result (old_challenge bytes.now) }
    ensures memory { ¬ (IsErrOf result MessageError.NoMemory) }
{
    let (_version, rest) = u16_at(bytes)?;
    let (flags, rest) = u32_at(rest)?;
    let (challenge, name) = u32_at(rest)?;
    Ok(MessageView::OldChallenge {
        flags,
        challenge,
        name,
    })
}

/// A new challenge (tag `N` of the accepting side): flags, challenge, creation, and a name behind its length. Bytes after the
/// name are ignored.
#[tactic(auto, unfolding(crate::specs::Reading::new_challenge))]
pub fn read_new_challenge(bytes: &[u8]) -> Result<MessageView<'_>, MessageError>
    ensures exact { Answers message_of result (new_challenge bytes.now) }
    ensures memory { ¬ (IsErrOf result MessageError.NoMemory) }
{
    let (flags, rest) = u64_at(bytes)?;
    let (challenge, rest) = u32_at(rest)?;
    let (creation, rest) = u32_at(rest)?;
    let (length, rest) = u16_at(rest)?;
    let (name, _ignored) = bytes_of_len(length as usize, rest)?;
    Ok(MessageView::NewChallenge {
        flags: Flags(flags),
        challenge,
        creation: Creation(creation),
        name,
    })
}
