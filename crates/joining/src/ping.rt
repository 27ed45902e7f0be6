//! The packet of `net_adm:ping`, and its answer. It is a call of `net_kernel` by the process that pings, `{is_auth, Node}`.
//!
//! Terms have the one form that the flags of this program leave (ERTS User's Guide, Distribution Protocol and External Term Format): atoms
//! are `SMALL_ATOM_UTF8_EXT`, pids `NEW_PID_EXT` and references `NEWER_REFERENCE_EXT`.

ghost use Rattle.std.specs.Prelude.{◌≡◌, ◌≢◌, ◌++◌, ℕ, List, IsTrue, IfSome, IfOk, MatchOption};
ghost use Rattle.joining.specs.Ping.{Asks, IsPid, IsReference, IsTag, answer, asked_after_pid};

use std::alloc::{AllocError, Global};

/// What a packet of `net_adm:ping` asks to have back, as the bytes that they are.
#[derive(Drop)]
pub struct PingCall<'a> {
    /// The process that asks.
    pub pid: &'a [u8],
    /// What its answer has to bear.
    pub tag: &'a [u8],
}

// What follows these bytes.
fn after<'a>(bytes: &'a [u8], front: &[u8]) -> Option<&'a [u8]>
    ensures { MatchOption result ((rest : List ℕ) → bytes.now ≢ front.now ++ rest) (λ rest. bytes.now ≡ front.now ++ rest.now) }
{
    bytes.strip_prefix(front)
}

// What stands before these bytes.
fn before<'a>(bytes: &'a [u8], back: &[u8]) -> Option<&'a [u8]>
    ensures { MatchOption result ((rest : List ℕ) → bytes.now ≢ rest ++ back.now) (λ rest. bytes.now ≡ rest.now ++ back.now) }
{
    bytes.strip_suffix(back)
}

// Whether these bytes are a reference that was made at this node.
fn is_reference(bytes: &[u8], node: &[u8]) -> bool
    ensures yes { IsTrue result → IsReference bytes.now node.now }
    ensures no { IsReference bytes.now node.now → IsTrue result }
{
    let Some(rest) = after(bytes, b"Z\0") else {
        return false;
    };
    let Some((count, rest)) = rest.split_first() else {
        return false;
    };
    match after(rest, node) {
        Some(numbers) => numbers.len() == 4 + 4 * usize::from(*count),
        None => false,
    }
}

// Whether these bytes are what bears an answer.
fn is_tag(bytes: &[u8], node: &[u8]) -> bool
    ensures yes { IsTrue result → IsTag bytes.now node.now }
    ensures no { IsTag bytes.now node.now → IsTrue result }
{
    match after(bytes, b"l\0\0\0\x01w\x05alias") {
        Some(reference) => is_reference(reference, node),
        None => is_reference(bytes, node),
    }
}

// The pid at the front, its node, and what follows.
fn split_pid(bytes: &[u8]) -> Option<(&[u8], &[u8], &[u8])>
    ensures some { IfSome result (λ it. IsPid it.0.now it.1.now) }
    ensures parts { IfSome result (λ it. bytes.now ≡ it.0.now ++ it.2.now) }
    ensures none { result ≡ None → (pid node rest : List ℕ) → IsPid pid node → bytes.now ≢ pid ++ rest }
{
    let rest = after(bytes, b"Xw")?;
    let count = usize::from(*rest.first()?);
    let (pid, rest) = bytes.split_at_checked(15 + count)?;
    Some((pid, &pid[1..3 + count], rest))
}

// What bears the answer, in what follows the pid of a question.
fn tag_in<'a>(bytes: &'a [u8], pid: &[u8], node: &[u8]) -> Option<&'a [u8]>
    ensures some { IfSome result (λ tag. IsTag tag.now node.now) }
    ensures whole { IfSome result (λ tag. bytes.now ≡ asked_after_pid pid.now tag.now node.now) }
    ensures none { result ≡ None → (tag : List ℕ) → IsTag tag node.now → bytes.now ≢ asked_after_pid pid.now tag node.now }
{
    let rest = after(bytes, b"w\0w\x0anet_kernel\x83h\x03w\x09$gen_callh\x02")?;
    let rest = before(after(rest, pid)?, node)?;
    let tag = before(rest, b"h\x02w\x07is_auth")?;
    if is_tag(tag, node) { Some(tag) } else { None }
}

/// The question of a packet, if it is that of `net_adm:ping`: `{6, Pid, '', net_kernel}` (REG_SEND), and `{'$gen_call', {Pid, Tag},
/// {is_auth, Node}}`. `Node` is that of `Pid` and of `Tag`, which is a reference, or `[alias | Reference]`. A packet of any other form
/// asks for nothing.
pub fn question_in(packet: &[u8]) -> Option<PingCall<'_>>
    ensures some { IfSome result (λ question. Asks packet.now question.pid.now question.tag.now) }
    ensures none { result ≡ None → (pid tag : List ℕ) → Asks packet.now pid tag → ⊥ }
{
    let rest = after(packet, b"p\x83h\x04a\x06")?;
    let (pid, node, rest) = split_pid(rest)?;
    let tag = tag_in(rest, pid, node)?;
    Some(PingCall { pid, tag })
}

/// The packet of the answer to a question: `{2, '', Pid}` (SEND), and `{Tag, yes}`.
pub fn answer_to(alloc: Global, question: &PingCall<'_>) -> Result<Vec<u8>, AllocError>
    ensures { IfOk result (λ packet. packet.items ≡ answer question.now.pid.now question.now.tag.now) }
{
    let mut packet = Vec::new(alloc);
    packet.extend_from_slice(b"p\x83h\x03a\x02w\0")?;
    packet.extend_from_slice(question.pid)?;
    packet.extend_from_slice(b"\x83h\x02")?;
    packet.extend_from_slice(question.tag)?;
    packet.extend_from_slice(b"w\x03yes")?;
    Ok(packet)
}
