//! What the bytes of a client ask for.

ghost use Rattle.std.specs.Prelude.{◌≡◌, IfOk};
ghost use Rattle.dist_epmd_clients.specs.Asking.{request_question, question};

use crate::front::front_of;
use dist_epmd::{EpmdError, Request, decode_request};
use std::alloc::{AllocError, Global};

// The most bytes of a request's body, our own choice: with its length it has a page. A name has at most 255 of them, so 3,800
// and more are left for what a node adds.
const MOST: usize = 4094;

/// What all that a client has sent asks for.
#[derive(Drop)]
pub enum Question {
    /// It is a front of a frame, and more is to come.
    Inside,
    /// It is the frame of a body whose front is this request, and nothing stands behind the frame.
    Asks(Request),
    /// Whatever comes behind it, it asks for nothing that is answered: it is the frame of no request, or a longer one than is
    /// read here, or bytes stand behind the frame, or it is a registration from another host.
    Nothing,
}

fn request_question(local: bool, request: Request) -> Question
    ensures { result ≡ request_question local (Ok request) }
{
    match request {
        Request::Alive(_) if !local => Question::Nothing,
        request => Question::Asks(request),
    }
}

/// What these bytes ask for, from a client of this host or of another.
pub fn question_of(alloc: Global, local: bool, said: &[u8]) -> Result<Question, AllocError>
    ensures { IfOk result (λ q. q ≡ question local said.now) }
{
    let Some((head, body)) = said.split_first_chunk::<2>() else {
        return Ok(Question::Inside);
    };
    let len = u16::from_be_bytes(*head) as usize;
    if len > MOST || body.len() > len {
        return Ok(Question::Nothing);
    }
    if body.len() < len {
        return Ok(Question::Inside);
    }
    match decode_request(alloc, front_of(body)) {
        Ok(request) => Ok(request_question(local, request)),
        Err(EpmdError::NoMemory) => Err(AllocError),
        Err(_) => Ok(Question::Nothing),
    }
}
