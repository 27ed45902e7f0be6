//! The questions of a client: one node's address, or all nodes.

ghost use Rattle.std.specs.Prelude.{◌≡◌, ◌++◌, Ok};
ghost use Rattle.dist_epmd.specs.{Layout.written_request, Reading.read_answer, declared.message.Asked.Asked, declared.message.Request.Request};
ghost use Rattle.dist_epmd_calls.specs.Asking.{Asks, AsksFor, IfItFits, ReportsBy, Settles, info_meant, names_meant};
ghost use Rattle.dist_epmd_calls.specs.Steps.{HearsSo, IsFrameOf};

use crate::lookup_error::LookupError;
use crate::refusals::{end_refusal, lookup_error, whole_refusal};
use dist_epmd::{Answer, Asked, PortInfo, Request, decode_answer, encode_request};
use dist_frames::write_short;
use dist_names::ByteString;
use dist_stream::{Limited, Stream, TurnError};
use std::alloc::Global;

// The most bytes of one read.
const PIECE: usize = 4096;

// The most bytes of a name with which a lookup fits a frame.
const MOST_OF_NAME: usize = 65534;

pub fn frame_of(alloc: Global, request: &Request) -> Result<ByteString, LookupError>
    ensures { IsFrameOf result (written_request request.now) }
{
    let body = match encode_request(alloc, request) {
        Ok(body) => body,
        Err(error) => return Err(whole_refusal(error)),
    };
    match write_short(alloc, body.as_slice()) {
        Ok(frame) => Ok(ByteString::from_vec(frame)),
        Err(_) => Err(LookupError::NoMemory),
    }
}

// Appends what comes up to the end of the stream.
fn read_to_end<S: Stream>(
    limited: &mut Limited<'_, S>,
    bytes: &mut Vec<u8>,
) -> Result<(), LookupError>
    ensures hears { HearsSo (S.meaning limited.old.stream.now) (S.meaning limited.new.stream.now) limited.old.left limited.new.left
        (λ stop heard. ReportsBy stop result ((result ≡ Ok tt) × (bytes.new.items ≡ bytes.old.items ++ heard))) }
    ensures loan { limited.new.stream.ghost_name ≡ limited.old.stream.ghost_name }
{
    let mut room = [0u8; PIECE];
    loop {
        match limited.read(&mut room) {
            Ok(count) => {
                if bytes.extend_from_slice(&room[..count]).is_err() {
                    return Err(LookupError::NoMemory);
                }
            }
            Err(TurnError::Ended) => return Ok(()),
            Err(fault) => return Err(lookup_error(fault)),
        }
    }
}

// Writes a request, and reads what comes up to the end of the stream.
fn exchange<S: Stream>(
    alloc: Global,
    stream: &mut S,
    request: &Request,
    limit: usize,
) -> Result<ByteString, LookupError>
    ensures { IfItFits (written_request request.now) (S.meaning stream.old) (S.meaning stream.new)
        (λ frame. Asks (S.meaning stream.old) (S.meaning stream.new) limit frame (λ heard. result ≡ Ok heard) result) result }
{
    let frame = frame_of(alloc, request)?;
    let mut limited = Limited {
        stream,
        left: limit,
    };
    limited.write_all(frame.as_slice())?;
    let mut bytes = Vec::new(alloc);
    read_to_end(&mut limited, &mut bytes)?;
    Ok(ByteString::from_vec(bytes))
}

// What an answer says of the node that was looked up.
fn info_of(alloc: Global, bytes: &[u8]) -> Result<PortInfo, LookupError>
    ensures { Settles result (info_meant bytes.now) (read_answer Asked.Port bytes.now) }
{
    match decode_answer(alloc, Asked::Port, bytes) {
        Ok(Answer::Port(Ok(info))) => Ok(info),
        Ok(Answer::Port(Err(_))) => Err(LookupError::NotThere),
        Ok(_) => Err(LookupError::Malformed),
        Err(error) => Err(end_refusal(error)),
    }
}

// What an answer says of all nodes.
fn names_of(alloc: Global, bytes: &[u8]) -> Result<(u32, ByteString), LookupError>
    ensures { Settles result (names_meant bytes.now) (read_answer Asked.Names bytes.now) }
{
    match decode_answer(alloc, Asked::Names, bytes) {
        Ok(Answer::Names { port, text }) => Ok((port, text)),
        Ok(_) => Err(LookupError::Malformed),
        Err(error) => Err(end_refusal(error)),
    }
}

/// Asks the port mapper for the node of this short name (the part before the `@`), in at most `limit` reads and writes.
///
/// The answer is all that comes up to the end of the stream, in pieces of at most 4,096 bytes, so it has at most 4,096 times
/// `limit` bytes. The name in it isn't compared with the one that was asked for. A name of more than
/// 65,534 bytes fits no frame: it is Malformed, and nothing is written. NotThere comes where the port mapper answers with a
/// result above 0, Malformed where the bytes spell no answer, Ended where they end inside one. ReadFailed, WriteFailed and
/// Limit come before the end was read, NoMemory before it or while the answer is copied; Refused is never returned.
///
/// Source: ERTS User's Guide, Distribution Protocol, EPMD Protocol. The limit is our own choice.
pub fn lookup<S: Stream>(
    alloc: Global,
    stream: &mut S,
    short: &[u8],
    limit: usize,
) -> Result<PortInfo, LookupError>
    ensures { AsksFor (Request.PortPlease short.now) (S.meaning stream.old) (S.meaning stream.new) limit info_meant result }
{
    if short.len() > MOST_OF_NAME {
        return Err(LookupError::Malformed);
    }
    let request = Request::PortPlease(ByteString::from_slice(alloc, short)?);
    let bytes = exchange(alloc, stream, &request, limit)?;
    info_of(alloc, bytes.as_slice())
}

/// Asks the port mapper for all nodes, in at most `limit` reads and writes: its own port, and the text of their lines.
///
/// The answer is all that comes up to the end of the stream, in pieces of at most 4,096 bytes. Fewer than 4 bytes are
/// Ended; the text behind the first 4 is taken as it is.
///
/// Source: ERTS User's Guide, Distribution Protocol, EPMD Protocol. The limit is our own choice.
pub fn ask_names<S: Stream>(
    alloc: Global,
    stream: &mut S,
    limit: usize,
) -> Result<(u32, ByteString), LookupError>
    ensures { AsksFor Request.Names (S.meaning stream.old) (S.meaning stream.new) limit names_meant result }
{
    let bytes = exchange(alloc, stream, &Request::Names, limit)?;
    names_of(alloc, bytes.as_slice())
}
