//! The registration of a node, by a client.

ghost use Rattle.std.specs.Prelude.{◌≡◌, length, nat_lt, false};
ghost use Rattle.dist_epmd.specs.Layout.{request_text, written_request};
ghost use Rattle.dist_epmd.specs.{Reading.read_answer, declared.message.Asked.Asked, declared.message.Request.Request};
ghost use Rattle.dist_epmd_calls.specs.Asking.{Registers, RegistersFor, Settles, creation_in, creation_meant, creation_unless, rest_len};
ghost use Rattle.dist_epmd_calls.specs.Steps.{HearsAnswer, IsFrameOf};

use crate::ask::frame_of;
use crate::lookup_error::LookupError;
use crate::refusals::whole_refusal;
use dist_epmd::{AliveReq, Answer, Asked, EpmdError, Request, decode_answer};
use dist_names::{ByteString, Creation};
use dist_stream::{Limited, Stream, TurnError};
use std::alloc::Global;

// The most bytes of a name and `extra` together with which a registration fits a frame.
const MOST_OF_TEXTS: usize = 65522;

fn is_too_long(request: &AliveReq) -> bool
    ensures { result ≡ nat_lt 65535 (length (request_text (Request.Alive request.now))) }
{
    let name = request.name.len();
    name > MOST_OF_TEXTS || request.extra.len() > MOST_OF_TEXTS - name
}

// The frame of a registration.
fn frame_of_alive(alloc: Global, request: &AliveReq) -> Result<ByteString, LookupError>
    requires { nat_lt 65535 (length (request_text (Request.Alive request.now))) ≡ false }
    ensures { IsFrameOf result (written_request (Request.Alive request.now)) }
{
    let request = Request::Alive(request.try_clone(alloc)?);
    frame_of(alloc, &request)
}

// How many bytes of an answer follow this tag.
fn rest_len(tag: u8) -> usize
    ensures { result ≡ rest_len tag }
{
    match tag {
        0x76 => 5,
        0x79 => 3,
        _ => 0,
    }
}

// Reads an answer to a registration into the buffer, and not a byte more. Returns how long it is.
fn read_answer<S: Stream>(limited: &mut Limited<'_, S>, room: &mut [u8]) -> Result<usize, TurnError>
    requires { length room.old ≡ 6 }
    ensures hears { HearsAnswer (S.meaning limited.old.stream.now) (S.meaning limited.new.stream.now) limited.old.left limited.new.left result room.new }
    ensures loan { limited.new.stream.ghost_name ≡ limited.old.stream.ghost_name }
{
    limited.read_exact(&mut room[..1])?;
    let len = 1 + rest_len(room[0]);
    limited.read_exact(&mut room[1..len])?;
    Ok(len)
}

// What an answer says of the registration.
fn creation_of(alloc: Global, bytes: &[u8]) -> Result<Creation, LookupError>
    ensures { Settles result (creation_meant bytes.now) (read_answer Asked.Alive bytes.now) }
{
    creation_in(&decode_answer(alloc, Asked::Alive, bytes))
}

fn creation_in(answer: &Result<Answer, EpmdError>) -> Result<Creation, LookupError>
    ensures { result ≡ creation_in answer.now }
{
    match answer {
        Ok(
            Answer::AliveX {
                result_code,
                creation,
            },
        ) => creation_unless(*result_code, *creation),
        Ok(
            Answer::Alive {
                result_code,
                creation,
            },
        ) => creation_unless(*result_code, *creation as u32),
        Ok(_) => Err(LookupError::Malformed),
        Err(error) => Err(whole_refusal(*error)),
    }
}

fn creation_unless(code: u8, creation: u32) -> Result<Creation, LookupError>
    ensures { result ≡ creation_unless code creation }
{
    if code == 0 {
        Ok(Creation(creation))
    } else {
        Err(LookupError::Refused(code))
    }
}

// Writes a frame, and reads an answer to a registration.
fn exchange<S: Stream>(
    alloc: Global,
    stream: &mut S,
    frame: &[u8],
    limit: usize,
) -> Result<Creation, LookupError>
    ensures { Registers (S.meaning stream.old) (S.meaning stream.new) limit frame.now result }
{
    let mut limited = Limited {
        stream,
        left: limit,
    };
    limited.write_all(frame)?;
    let mut room = [0u8; 6];
    let len = read_answer(&mut limited, &mut room)?;
    creation_of(alloc, &room[..len])
}

/// Registers a node with the port mapper, in at most `limit` reads and writes, and returns its creation.
///
/// The registration lasts as long as the connection, so the stream stays in use, and no byte behind the answer is read: 6
/// bytes with a creation of 32 bits; 4 with one of 16, which is taken as it is; and only the first byte where it is unknown, which
/// is Malformed. A request above 65,535 bytes is Malformed too, and nothing is written. Refused carries a result above 0.
/// Ended comes where the stream ends inside the answer; NotThere is never returned.
///
/// Source: ERTS User's Guide, Distribution Protocol, EPMD Protocol. The limit is our own choice.
pub fn register<S: Stream>(
    alloc: Global,
    stream: &mut S,
    request: &AliveReq,
    limit: usize,
) -> Result<Creation, LookupError>
    ensures { RegistersFor request.now (S.meaning stream.old) (S.meaning stream.new) limit result }
{
    if is_too_long(request) {
        return Err(LookupError::Malformed);
    }
    let frame = frame_of_alive(alloc, request)?;
    exchange(alloc, stream, frame.as_slice(), limit)
}
