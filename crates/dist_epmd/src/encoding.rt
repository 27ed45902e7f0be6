//! Writing messages.

ghost use Rattle.std.specs.Prelude.{◌≡◌, ◌<◌, ◌∷◌, ◌++◌, ◌^◌, length, nat_lt, true, false, not, OnOk};
ghost use Rattle.std.specs.Int.{w16};
ghost use Rattle.dist_names.specs.Bytes.{number};
ghost use Rattle.dist_epmd.specs.Answering.{Answers};
ghost use Rattle.dist_epmd.specs.Layout.{text_field, info_text, request_text, written_request, written_answer, is_spelled, answer_text};

use crate::epmd_error::EpmdError;
use crate::message::{Answer, NodeInfo, Request};
use std::alloc::{AllocError, Global};

// The greatest number that a length of 2 bytes can express.
const MOST: usize = 65535;

/// Appends two pieces. It fails only where memory runs out.
pub fn push_both(bytes: &mut Vec<u8>, first: &[u8], second: &[u8]) -> Result<(), AllocError>
    ensures { OnOk result (bytes.new.items ≡ bytes.old.items ++ (first.now ++ second.now)) }
{
    bytes.extend_from_slice(first)?;
    bytes.extend_from_slice(second)
}

// Appends a text behind its length in 2 bytes.
fn push_text(bytes: &mut Vec<u8>, text: &[u8]) -> Result<(), AllocError>
    requires { length text.now < 2 ^ 16 }
    ensures { OnOk result (bytes.new.items ≡ bytes.old.items ++ text_field text.now) }
{
    push_both(bytes, &(text.len() as u16).to_be_bytes(), text)
}

// The fields of fixed size.
fn numbers(info: &NodeInfo) -> [u8; 8]
    ensures { result ≡ number w16 info.now.port ++ (info.now.node_type ∷ info.now.protocol ∷ number w16 info.now.highest ++ number w16 info.now.lowest) }
{
    let [a, b] = info.port.to_be_bytes();
    let [c, d] = info.highest.to_be_bytes();
    let [e, f] = info.lowest.to_be_bytes();
    [a, b, info.node_type, info.protocol, c, d, e, f]
}

// Appends some bytes, and then the fields of a node.
fn push_info(bytes: &mut Vec<u8>, before: &[u8], info: &NodeInfo) -> Result<(), AllocError>
    requires name { length info.now.name < 2 ^ 16 }
    requires extra { length info.now.extra < 2 ^ 16 }
    ensures { OnOk result (bytes.new.items ≡ bytes.old.items ++ (before.now ++ info_text info.now)) }
{
    push_both(bytes, before, &numbers(info))?;
    push_text(bytes, info.name.as_slice())?;
    push_text(bytes, info.extra.as_slice())
}

// Whether the request fits a frame.
fn is_framed(request: &Request) -> bool
    ensures { result ≡ not (nat_lt 65535 (length (request_text request.now))) }
{
    match request {
        Request::Alive(info) => {
            let name = info.name.as_slice().len();
            name <= MOST - 13 && info.extra.as_slice().len() <= MOST - 13 - name
        }
        Request::PortPlease(name) => name.as_slice().len() < MOST,
        Request::Names => true,
    }
}

fn push_request(body: &mut Vec<u8>, request: &Request) -> Result<(), AllocError>
    // The caller asks `is_framed` first.
    requires { nat_lt 65535 (length (request_text request.now)) ≡ false }
    ensures { OnOk result (body.new.items ≡ body.old.items ++ request_text request.now) }
{
    match request {
        Request::Alive(info) => push_info(body, &[0x78], info),
        Request::PortPlease(name) => push_both(body, &[0x7a], name.as_slice()),
        Request::Names => body.extend_from_slice(&[0x6e]),
    }
}

/// The body that is written for a request (see [`Request`]), without the frame's length before it.
///
/// Refusals, the first that holds: Malformed where it has more than 65,535 bytes; NoMemory.
pub fn encode_request(alloc: Global, request: &Request) -> Result<Vec<u8>, EpmdError>
    ensures exact { Answers (λ v. v.items) result (written_request request.now) }
{
    if !is_framed(request) {
        return Err(EpmdError::Malformed);
    }
    let mut body = Vec::new(alloc);
    push_request(&mut body, request)?;
    Ok(body)
}

fn is_spelled(answer: &Answer) -> bool
    ensures { result ≡ is_spelled answer.now }
{
    match answer {
        Answer::Port(Ok(info)) => {
            info.name.as_slice().len() <= MOST && info.extra.as_slice().len() <= MOST
        }
        Answer::Port(Err(code)) => *code != 0,
        _ => true,
    }
}

fn push_answer(bytes: &mut Vec<u8>, answer: &Answer) -> Result<(), AllocError>
    // The caller asks `is_spelled` first.
    requires { is_spelled answer.now ≡ true }
    ensures { OnOk result (bytes.new.items ≡ bytes.old.items ++ answer_text answer.now) }
{
    match answer {
        Answer::AliveX {
            result_code,
            creation,
        } => push_both(bytes, &[0x76, *result_code], &creation.to_be_bytes()),
        Answer::Alive {
            result_code,
            creation,
        } => push_both(bytes, &[0x79, *result_code], &creation.to_be_bytes()),
        Answer::Port(Ok(info)) => push_info(bytes, &[0x77, 0], info),
        Answer::Port(Err(code)) => bytes.extend_from_slice(&[0x77, *code]),
        Answer::Names { port, text } => push_both(bytes, &port.to_be_bytes(), text.as_slice()),
    }
}

/// The bytes that are written for an answer (see [`Answer`]).
///
/// Refusals, the first that holds: Malformed where the name or extra of a node has more than 65,535 bytes, or the result of
/// a lookup without a node is 0; NoMemory.
pub fn encode_answer(alloc: Global, answer: &Answer) -> Result<Vec<u8>, EpmdError>
    ensures exact { Answers (λ v. v.items) result (written_answer answer.now) }
{
    if !is_spelled(answer) {
        return Err(EpmdError::Malformed);
    }
    let mut bytes = Vec::new(alloc);
    push_answer(&mut bytes, answer)?;
    Ok(bytes)
}
