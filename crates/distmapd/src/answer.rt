//! The answer of a port mapper to the question for all names: its port in 4 bytes, a line for each name, and the end (ERTS User's
//! Guide, Distribution Protocol, Get All Registered Names from EPMD).

ghost use Rattle.std.specs.Prelude.{◌≡◌, IfOk, IfErr};
ghost use Rattle.distmapd.specs.Answers.{AnswersNames, ReadsRest, IsFaultOfAsking};

use crate::fault::Fault;
use dist_stream::{AMPLE_TURNS, Limited, Stream, TurnError};
use std::alloc::{AllocError, Global};

// The frame of the question: a body of one byte.
const QUESTION: [u8; 3] = [0, 1, b'n'];

// The most bytes of one read.
const PIECE: usize = 4096;

// Reading stops after this many bytes, so that no answer takes all memory. The line of a name has at most 280 bytes, so there is room
// for more than 3,700. Our own choice.
const ENOUGH: usize = 1_048_576;

/// The part of an answer that arrived.
#[derive(Drop)]
pub struct ReceivedAnswer {
    /// The bytes, in order.
    pub bytes: Vec<u8>,
    /// Whether the port mapper ended it. If not, a read failed, the time was over, or there were more bytes than are read.
    pub is_ended: bool,
}

// Appends what is read until the end, the first fault, or enough bytes. Returns whether the end was reached.
fn read_rest<S: Stream>(
    limited: &mut Limited<'_, S>,
    bytes: &mut Vec<u8>,
) -> Result<bool, AllocError>
    ensures reads { IfOk result (λ is_ended. ReadsRest (S.meaning limited.old.stream.now) (S.meaning limited.new.stream.now)
        limited.old.left limited.new.left is_ended bytes.old.items bytes.new.items) }
    ensures loan { limited.new.stream.ghost_name ≡ limited.old.stream.ghost_name }
{
    let mut room = [0u8; PIECE];
    loop {
        match limited.read(&mut room) {
            Ok(count) => {
                bytes.extend_from_slice(&room[..count])?;
                if bytes.len() >= ENOUGH {
                    return Ok(false);
                }
            }
            Err(TurnError::Ended) => return Ok(true),
            Err(_) => return Ok(false),
        }
    }
}

/// Asks for all names, and reads until the end, a fault, a stream that stays quiet, or a mebibyte and at most 4,095 bytes more.
///
/// `NoAnswer` if the question could not be sent whole, and `NoMemory`. Nothing else is refused: the answer may be cut anywhere.
pub fn ask<S: Stream>(alloc: Global, stream: &mut S) -> Result<ReceivedAnswer, Fault>
    ensures ok { IfOk result (λ answer. AnswersNames (S.meaning stream.old) (S.meaning stream.new) answer) }
    ensures err { IfErr result IsFaultOfAsking }
{
    let mut limited = Limited {
        stream,
        left: AMPLE_TURNS,
    };
    if limited.write_all(&QUESTION).is_err() {
        return Err(Fault::NoAnswer);
    }
    let mut bytes = Vec::new(alloc);
    let is_ended = read_rest(&mut limited, &mut bytes)?;
    Ok(ReceivedAnswer { bytes, is_ended })
}
