//! What a connection carries, as its first bytes show it.

ghost use Rattle.std.specs.Prelude.{◌≡◌, if◌then◌else◌};
ghost use Rattle.std.specs.Int.{w16};
ghost use Rattle.dist_frames.specs.Stream.{first_body};
ghost use Rattle.dist_messages.specs.Reading.{read};
ghost use Rattle.dist_names.specs.NodeName.{has_two_parts};
ghost use Rattle.dist_conversation.specs.Recognized.{is_of_acceptor, is_foreign, is_good_name, is_later_of_dialler};
ghost use Rattle.dist_conversation.specs.Recognized.{is_name, is_tls, look_of, look_of_body, names_node, shown_of};

use dist_frames::first_body;
use dist_messages::{MessageView, Side, read_in_place};
use dist_names::{Flags, are_visible, host_part};
use dist_talk::tags_of;

/// What the first bytes of a side look like.
#[derive(Clone, Copy)]
pub enum Look {
    /// Nothing yet: there are too few.
    Open,
    /// A name, with which a handshake begins.
    Name,
    /// A later message of this side.
    Later(Side),
    /// A record of TLS.
    Tls,
    /// Anything else.
    Other,
}

// Whether there is one separator, and neither part is empty.
#[tactic(auto, using(dist_names::proofs::Places::no_host, dist_names::proofs::Places::no_short))]
fn has_two_parts(name: &[u8]) -> bool
    ensures { result ≡ has_two_parts name.now }
{
    let host = host_part(name);
    if host.is_empty() {
        return false;
    }
    if host.len() + 1 >= name.len() {
        return false;
    }
    !host.contains(&b'@')
}

// Whether these bytes are a node's name.
fn is_good_name(name: &[u8]) -> bool
    ensures { result ≡ is_good_name name.now }
{
    has_two_parts(name) && name.len() <= 255 && are_visible(name)
}

// Whether these bytes are a node's name, or a node asks for one.
fn names_node(flags: Flags, name: &[u8]) -> bool
    ensures { result ≡ names_node flags name.now }
{
    flags.has(Flags::NAME_ME) || is_good_name(name)
}

// Whether a body of the side that dialled says its name.
fn is_name(body: &[u8]) -> bool
    ensures { result ≡ is_name (read Side.Dialler body.now) }
{
    match read_in_place(Side::Dialler, body) {
        Ok(MessageView::NewName { name, flags, .. }) => names_node(flags, name),
        Ok(MessageView::OldName { name, .. }) => is_good_name(name),
        _ => false,
    }
}

// Whether a body of the accepting side says a later message than its status.
fn is_of_acceptor(body: &[u8]) -> bool
    ensures { result ≡ is_of_acceptor (read Side.Acceptor body.now) }
{
    match read_in_place(Side::Acceptor, body) {
        Ok(MessageView::Status(_) | MessageView::Ack { .. }) => true,
        Ok(MessageView::NewChallenge { name, flags, .. }) => names_node(flags, name),
        _ => false,
    }
}

// Whether a body of the side that dialled says a later message than its name.
fn is_later_of_dialler(body: &[u8]) -> bool
    ensures { result ≡ is_later_of_dialler (read Side.Dialler body.now) }
{
    match read_in_place(Side::Dialler, body) {
        Ok(MessageView::Status(_) | MessageView::Complement { .. } | MessageView::Reply { .. }) =>
            true,
        _ => false,
    }
}

// What a body looks like.
#[tactic(auto, unfolding(crate::specs::Recognized::look_of_body))]
fn look_at_body(body: &[u8]) -> Look
    ensures { result ≡ look_of_body body.now }
{
    if is_name(body) {
        return Look::Name;
    }
    if is_of_acceptor(body) {
        return Look::Later(Side::Acceptor);
    }
    if is_later_of_dialler(body) {
        return Look::Later(Side::Dialler);
    }
    Look::Other
}

// Whether a record of TLS begins these bytes: its first byte, which is that of a handshake, and its version (RFC 5246, section 6.2.1).
fn is_tls(bytes: &[u8]) -> bool
    ensures { result ≡ is_tls bytes.now }
{
    match bytes {
        [first, second, ..] => *first == 0x16 && *second == 0x03,
        _ => false,
    }
}

// Whether no tag of a message of a handshake stands behind two bytes.
fn is_foreign(bytes: &[u8]) -> bool
    ensures { result ≡ is_foreign bytes.now }
{
    match bytes {
        [_, _, tag, ..] => {
            !tags_of(Side::Dialler).contains(tag) && !tags_of(Side::Acceptor).contains(tag)
        }
        _ => false,
    }
}

/// What these bytes look like, the first that a side sent.
#[tactic(auto, unfolding(crate::specs::Recognized::look_of))]
pub fn look_at(bytes: &[u8]) -> Look
    ensures { result ≡ look_of bytes.now }
{
    if is_tls(bytes) {
        return Look::Tls;
    }
    if is_foreign(bytes) {
        return Look::Other;
    }
    match first_body(bytes) {
        Some(body) => look_at_body(body),
        None => Look::Open,
    }
}

/// What a connection carries.
#[derive(Clone, Copy)]
pub enum Shown {
    /// That is not known yet.
    Nothing,
    /// A handshake of Erlang's distribution, and then packets.
    Handshake,
    /// A request to a port mapper, and its answer.
    Mapper,
    /// TLS, of the side that dialled.
    Tls,
    /// Anything else.
    Other,
}

/// What it means that the first bytes of the two sides look so, and whether the side that was taken for the one that dialled is the other one;
/// whether it is certain who dialled.
#[tactic(auto, unfolding(crate::specs::Recognized::shown_of))]
pub fn shown_by(looks: (Look, Look), is_certain: bool) -> (Shown, bool)
    ensures { result ≡ shown_of is_certain looks.0 looks.1 }
{
    match looks {
        (Look::Name, _) => (Shown::Handshake, false),
        (_, Look::Name) if !is_certain => (Shown::Handshake, true),
        (Look::Later(Side::Dialler), _) | (Look::Open, Look::Later(Side::Acceptor)) => (
            Shown::Handshake,
            false,
        ),
        (Look::Later(Side::Acceptor), _) | (Look::Open, Look::Later(Side::Dialler))
            if !is_certain => (Shown::Handshake, true),
        (Look::Open, Look::Open) => (Shown::Nothing, false),
        (Look::Tls, _) => (Shown::Tls, false),
        _ => (Shown::Other, false),
    }
}
