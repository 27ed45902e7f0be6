//! The frames that a node sends.
//!
//! Each frame is appended to what is sent before it, and the own name is read from the setup, not copied: what is sent in one
//! step takes memory once.
ghost use Rattle.std.specs.{Prelude.◌≡◌, Prelude.◌<◌, Prelude.◌^◌, Prelude.◌++◌, Prelude.[], Prelude.IfOk, Prelude.OnOk, Int.w16, Int.to_be_bytes};
ghost use Rattle.dist_messages.specs.declared.message.Message.TheVariants as message;
ghost use Rattle.dist_core_setup.specs.Saying.{frame_of, status_text, name_text, challenge_text, greeting_text, reply_text, ack_text};
ghost use Rattle.dist_core_setup.specs.Saying.{challenge_message, complement_message, name_message, reply_message, ack_message};

use crate::checks::{announced_by, opens_new, own_digest};
use crate::setup::Setup;
use dist_messages::{
    Form, Status, put_ack, put_complement, put_new_challenge, put_new_name, put_old_challenge,
    put_old_name, put_reply, put_status,
};
use dist_names::{ByteString, NodeName};
use std::alloc::{AllocError, Global};

/// Room for what is sent in one step, without a name: a status, and a challenge after it, have at most 39 bytes.
const ROOM: usize = 40;

// Nothing yet, with room for what a node sends in one step.
fn begin(alloc: Global, setup: &Setup) -> Result<Vec<u8>, AllocError>
    ensures { IfOk result (λ say. say.items ≡ []) }
{
    Vec::with_capacity(alloc, ROOM + setup.name.bytes().len())
}

// Appends the length of a frame: how many bytes its body has.
fn put_len(say: &mut Vec<u8>, len: usize) -> Result<(), AllocError>
    // No body that a node sends has more than 274 bytes.
    requires { len < 2 ^ 16 }
    ensures { OnOk result (say.new.items ≡ say.old.items ++ to_be_bytes w16 len) }
{
    say.extend_from_slice(&(len as u16).to_be_bytes())
}

#[tactic(auto, using(crate::proofs::Framing::says_status, crate::proofs::Framing::text_is_short))]
fn put_status_frame(say: &mut Vec<u8>, status: Status) -> Result<(), AllocError>
    ensures { OnOk result (say.new.items ≡ say.old.items ++ frame_of (message.Status status)) }
{
    put_len(say, 1 + status.text().len())?;
    put_status(say, status)
}

// Appends the own name in the form that opens the handshake.
#[tactic(auto, using(crate::proofs::Framing::old_name, crate::proofs::Framing::new_name))]
fn put_name_frame(say: &mut Vec<u8>, setup: &Setup, form: Form) -> Result<(), AllocError>
    ensures { OnOk result (say.new.items ≡ say.old.items ++ frame_of (name_message setup.now form)) }
{
    let name = setup.name.bytes();
    let flags = announced_by(setup);
    if opens_new(setup, form) {
        put_len(say, 15 + name.len())?;
        put_new_name(say, flags, setup.creation, name)
    } else {
        put_len(say, 7 + name.len())?;
        put_old_name(say, flags.low(), name)
    }
}

#[tactic(auto, using(crate::proofs::Framing::old_challenge, crate::proofs::Framing::new_challenge))]
fn put_challenge_frame(
    say: &mut Vec<u8>,
    setup: &Setup,
    form: Form,
    fresh: u32,
) -> Result<(), AllocError>
    ensures { OnOk result (say.new.items ≡ say.old.items ++ frame_of (challenge_message setup.now form fresh)) }
{
    let name = setup.name.bytes();
    let flags = announced_by(setup);
    match form {
        Form::New | Form::Old => {
            put_len(say, 19 + name.len())?;
            put_new_challenge(say, flags, fresh, setup.creation, name)
        }
        Form::Five => {
            put_len(say, 11 + name.len())?;
            put_old_challenge(say, flags.low(), fresh, name)
        }
    }
}

#[tactic(auto, using(crate::proofs::Framing::complement))]
fn put_complement_frame(say: &mut Vec<u8>, setup: &Setup) -> Result<(), AllocError>
    ensures { OnOk result (say.new.items ≡ say.old.items ++ frame_of (complement_message setup.now)) }
{
    put_len(say, 9)?;
    put_complement(say, announced_by(setup).high(), setup.creation)
}

#[tactic(auto, using(crate::proofs::Framing::reply))]
fn put_reply_frame(
    say: &mut Vec<u8>,
    setup: &Setup,
    peer: &NodeName,
    fresh: u32,
    challenge: u32,
) -> Result<(), AllocError>
    ensures { OnOk result (say.new.items ≡ say.old.items ++ frame_of (reply_message setup.now peer.now fresh challenge)) }
{
    put_len(say, 21)?;
    put_reply(say, fresh, &own_digest(setup, peer, challenge))
}

#[tactic(auto, using(crate::proofs::Framing::ack))]
fn put_ack_frame(
    say: &mut Vec<u8>,
    setup: &Setup,
    peer: &NodeName,
    challenge: u32,
) -> Result<(), AllocError>
    ensures { OnOk result (say.new.items ≡ say.old.items ++ frame_of (ack_message setup.now peer.now challenge)) }
{
    put_len(say, 17)?;
    put_ack(say, &own_digest(setup, peer, challenge))
}

/// A status, in its frame.
pub fn status_frame(alloc: Global, status: Status) -> Result<ByteString, AllocError>
    ensures { IfOk result (λ b. b ≡ status_text status) }
{
    let mut say = Vec::with_capacity(alloc, ROOM)?;
    put_status_frame(&mut say, status)?;
    Ok(ByteString::from_vec(say))
}

/// The own name in the form that opens the handshake, in its frame (OTP's `send_name`).
pub fn name_frame(alloc: Global, setup: &Setup, form: Form) -> Result<ByteString, AllocError>
    ensures { IfOk result (λ b. b ≡ name_text setup.now form) }
{
    let mut say = begin(alloc, setup)?;
    put_name_frame(&mut say, setup, form)?;
    Ok(ByteString::from_vec(say))
}

/// The node's own challenge, in its frame (OTP's `send_challenge`).
pub fn challenge_frame(
    alloc: Global,
    setup: &Setup,
    form: Form,
    fresh: u32,
) -> Result<ByteString, AllocError>
    ensures { IfOk result (λ b. b ≡ challenge_text setup.now form fresh) }
{
    let mut say = begin(alloc, setup)?;
    put_challenge_frame(&mut say, setup, form, fresh)?;
    Ok(ByteString::from_vec(say))
}

/// The status, and the challenge after it: two frames.
pub fn greeting(
    alloc: Global,
    setup: &Setup,
    status: Status,
    form: Form,
    fresh: u32,
) -> Result<ByteString, AllocError>
    ensures { IfOk result (λ b. b ≡ greeting_text setup.now status form fresh) }
{
    let mut say = begin(alloc, setup)?;
    put_status_frame(&mut say, status)?;
    put_challenge_frame(&mut say, setup, form, fresh)?;
    Ok(ByteString::from_vec(say))
}

/// The reply to a challenge, after the complement in a handshake that has one (OTP's `send_challenge_reply`,
/// `send_complement`).
pub fn reply_frame(
    alloc: Global,
    setup: &Setup,
    form: Form,
    peer: &NodeName,
    fresh: u32,
    challenge: u32,
) -> Result<ByteString, AllocError>
    ensures { IfOk result (λ b. b ≡ reply_text setup.now form peer.now fresh challenge) }
{
    let mut say = Vec::with_capacity(alloc, ROOM)?;
    match form {
        Form::New | Form::Five => {}
        Form::Old => put_complement_frame(&mut say, setup)?,
    }
    put_reply_frame(&mut say, setup, peer, fresh, challenge)?;
    Ok(ByteString::from_vec(say))
}

/// The acknowledgement of a reply, in its frame (OTP's `send_challenge_ack`).
pub fn ack_frame(
    alloc: Global,
    setup: &Setup,
    peer: &NodeName,
    challenge: u32,
) -> Result<ByteString, AllocError>
    ensures { IfOk result (λ b. b ≡ ack_text setup.now peer.now challenge) }
{
    let mut say = Vec::with_capacity(alloc, ROOM)?;
    put_ack_frame(&mut say, setup, peer, challenge)?;
    Ok(ByteString::from_vec(say))
}
