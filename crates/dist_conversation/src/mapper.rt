//! What is said to a port mapper.

ghost use Rattle.std.specs.Prelude.{◌≡◌, ◌&&◌, IfOk, false, is_some, not};
ghost use Rattle.std.specs.Option.{option_map_or};
ghost use Rattle.dist_conversation.specs.{Said.answered_by, Said.talk_in, Verdicts.answer_verdict, Verdicts.is_read_of, Verdicts.talk_verdict};

use dist_epmd::{Answer, Asked, EpmdError, Request, decode_answer, decode_request};
use dist_epmd_calls::LookupError;
use dist_frames::first_body;
use dist_talk::HandshakeVerdict;
use std::alloc::{AllocError, Global};

/// What is said to a port mapper.
#[derive(Drop)]
pub struct MapperTalk {
    /// What it is asked.
    pub request: Option<Request>,
    /// What it answers to a registration or a lookup.
    pub answer: Option<Answer>,
    /// Why it gave no answer.
    pub fault: Option<LookupError>,
}

/// The result of a registration, and the creation.
pub fn registration_of(answer: &Answer) -> Option<(u8, u32)> {
    match answer {
        Answer::AliveX {
            result_code,
            creation,
        } => Some((*result_code, *creation)),
        Answer::Alive {
            result_code,
            creation,
        } => Some((*result_code, u32::from(*creation))),
        _ => None,
    }
}

// The verdict on an answer: a registration whose result is not 0 is refused.
fn answer_verdict(answer: &Answer) -> Option<HandshakeVerdict>
    ensures { result ≡ answer_verdict answer.now }
{
    match answer {
        Answer::AliveX { result_code: 0, .. } | Answer::Alive { result_code: 0, .. } => None,
        Answer::AliveX { .. } | Answer::Alive { .. } => Some(HandshakeVerdict::NameInUse),
        Answer::Port(Err(_)) => Some(HandshakeVerdict::NotRegistered),
        Answer::Port(Ok(_)) | Answer::Names { .. } => None,
    }
}

// The answer to this request in these bytes, if it is whole; that to a request for all names is not read.
fn answer_in(alloc: Global, request: &Request, bytes: &[u8]) -> Result<Option<Answer>, AllocError>
    ensures { IfOk result (λ answer. answer ≡ answered_by request.now bytes.now) }
{
    let asked = match request {
        Request::Alive(_) => Asked::Alive,
        Request::PortPlease(_) => Asked::Port,
        Request::Names => return Ok(None),
    };
    match decode_answer(alloc, asked, bytes) {
        Ok(answer) => Ok(Some(answer)),
        Err(EpmdError::NoMemory) => Err(AllocError),
        Err(_) => Ok(None),
    }
}

/// What is said to a port mapper in these bytes of both sides. `None` if they are no request.
pub fn talk_in(
    alloc: Global,
    dialler: &[u8],
    acceptor: &[u8],
) -> Result<Option<MapperTalk>, AllocError>
    ensures { IfOk result (λ talk. talk ≡ talk_in dialler.now acceptor.now) }
{
    let mut talk = MapperTalk {
        request: None,
        answer: None,
        fault: None,
    };
    let Some(body) = first_body(dialler) else {
        return Ok(Some(talk));
    };
    match decode_request(alloc, body) {
        Ok(request) => {
            talk.answer = answer_in(alloc, &request, acceptor)?;
            talk.request = Some(request);
            Ok(Some(talk))
        }
        Err(EpmdError::NoMemory) => Err(AllocError),
        Err(_) => Ok(None),
    }
}

impl MapperTalk {
    /// Whether an answer is awaited that is read.
    pub fn is_awaited(&self) -> bool
        ensures { result ≡ (not (is_some self.now.answer) && option_map_or is_read_of self.now.request false) }
    {
        self.answer.is_none()
            && matches!(
                &self.request,
                Some(Request::Alive(_) | Request::PortPlease(_))
            )
    }

    /// The verdict on what was answered, or that nothing was. `None` if nothing is wrong with it.
    pub fn verdict(&self) -> Option<HandshakeVerdict>
        ensures { result ≡ talk_verdict self.now.answer self.now.fault }
    {
        match (&self.answer, self.fault) {
            (Some(answer), _) => answer_verdict(answer),
            (None, Some(fault)) => Some(HandshakeVerdict::MapperFault(fault)),
            (None, None) => None,
        }
    }

    /// The port of the node that is registered by it.
    pub fn registered_port(&self) -> Option<u16> {
        match (&self.request, &self.answer) {
            (Some(Request::Alive(info)), Some(answer)) => match registration_of(answer) {
                Some((0, _)) => Some(info.port),
                _ => None,
            },
            _ => None,
        }
    }
}
