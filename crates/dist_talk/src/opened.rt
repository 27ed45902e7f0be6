//! How the dialling side opened a handshake.

ghost use Rattle.std.specs.Prelude.{◌≡◌};
ghost use Rattle.dist_talk.specs.Opened.{asks_for_name, complement_behind, lacking_new, lacking_old, opened_by};

use crate::handshake::{SentContent, SentMessage};
use crate::terms::Terms;
use dist_flags::{Release, missing};
use dist_messages::{Message, Opening};
use dist_names::{Creation, Flags};

/// How the dialling side opened a handshake.
#[derive(Clone, Copy)]
pub struct Opened {
    /// Whether its name is that of the node that was to be dialled.
    pub is_own: bool,
    /// The form of the name.
    pub opening: Opening,
    /// The flags that releases from 26 on require, and that it does not announce: behind an older name without its complement only
    /// those of the lower half.
    pub lacking: Flags,
}

// Which flags that releases from 26 on require are missing of these.
fn lacking_new(flags: Flags) -> Flags
    ensures { result ≡ lacking_new flags }
{
    missing(flags, Release::Otp28.required())
}

// The same behind an older name, whose upper half is in the complement.
fn lacking_old(low: u32, complement: Option<(u32, Creation)>) -> Flags
    ensures { result ≡ lacking_old low complement }
{
    match complement {
        Some((high, _)) => lacking_new(Flags::of_halves(high, low)),
        None => Flags(u64::from(lacking_new(Flags(u64::from(low))).low())),
    }
}

/// A complement: the first that is said behind the name, or behind the answer to `alive`.
pub fn complement_behind(behind: &[SentMessage]) -> Option<(u32, Creation)>
    ensures { result ≡ complement_behind behind.now }
{
    match behind {
        [] => None,
        [only] => only.content.complement(),
        [first, second, ..] => match first.content.complement() {
            Some(complement) => Some(complement),
            None => second.content.complement(),
        },
    }
}

/// How this first body of the dialling side opened the handshake, with what it said behind it. `None` if it is no name.
pub fn opened_by(terms: &Terms<'_>, first: &SentContent, behind: &[SentMessage]) -> Option<Opened>
    ensures { result ≡ opened_by terms.now first.now behind.now }
{
    match first {
        SentContent::Message(Message::NewName { flags, name, .. }) => Some(Opened {
            is_own: terms.has_target(name.as_slice()),
            opening: Opening::New,
            lacking: lacking_new(*flags),
        }),
        SentContent::Message(Message::OldName { flags, name }) => Some(Opened {
            is_own: terms.has_target(name.as_slice()),
            opening: Opening::Old,
            lacking: lacking_old(*flags, complement_behind(behind)),
        }),
        _ => None,
    }
}

/// Whether it asks for a name (a dynamic name), instead of giving its own.
pub fn asks_for_name(first: &SentContent) -> bool
    ensures { result ≡ asks_for_name first.now }
{
    match first {
        SentContent::Message(Message::NewName { flags, .. }) => flags.has(Flags::NAME_ME),
        _ => false,
    }
}
