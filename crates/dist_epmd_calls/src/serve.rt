//! Serving one request of a client.

ghost use Rattle.std.specs.Prelude.{◌≡◌};
ghost use Rattle.dist_epmd.specs.Layout.{written_answer};
ghost use Rattle.dist_epmd_calls.specs.Serving.{AfterCut, Came, IsSaid, Replies, Serves, served_as};
ghost use Rattle.dist_epmd_calls.specs.Steps.{HearsSo, SaysSo};

use crate::bodies::{Arrived, read_frame};
use crate::lookup_error::LookupError;
use crate::mapper::Mapper;
use crate::refusals::{lookup_error, whole_refusal};
use dist_epmd::{Answer, Request, decode_request, encode_answer};
use dist_stream::{Limited, Stream};
use std::alloc::Global;

/// How a request was served.
#[derive(Clone, Copy, Debug, PartialEq, Eq)]
pub enum Served {
    /// A registration was answered with result 0: the caller keeps the stream as long as the node keeps it.
    Registered,
    /// Any other request was answered: the caller closes the stream.
    Answered,
}

fn read_request<S: Stream>(
    alloc: Global,
    limited: &mut Limited<'_, S>,
) -> Result<Request, LookupError>
    ensures hears { HearsSo (S.meaning limited.old.stream.now) (S.meaning limited.new.stream.now) limited.old.left limited.new.left
        (λ stop heard. Came stop result heard) }
    ensures loan { limited.new.stream.ghost_name ≡ limited.old.stream.ghost_name }
{
    let body = match read_frame(alloc, limited, u16::MAX) {
        Arrived::Body(body) => body,
        Arrived::Long(_) => unreachable!(),
        Arrived::Stopped(fault) => return Err(lookup_error(fault)),
        Arrived::NoMemory => return Err(LookupError::NoMemory),
    };
    match decode_request(alloc, body.as_slice()) {
        Ok(request) => Ok(request),
        Err(error) => Err(whole_refusal(error)),
    }
}

fn write_answer<S: Stream>(
    alloc: Global,
    limited: &mut Limited<'_, S>,
    answer: &Answer,
) -> Result<(), LookupError>
    ensures says { SaysSo (S.meaning limited.old.stream.now) (S.meaning limited.new.stream.now) limited.old.left limited.new.left
        (λ stop said. IsSaid stop (written_answer answer.now) result said) }
    ensures loan { limited.new.stream.ghost_name ≡ limited.old.stream.ghost_name }
{
    let bytes = match encode_answer(alloc, answer) {
        Ok(bytes) => bytes,
        Err(error) => return Err(whole_refusal(error)),
    };
    limited.write_all(bytes.as_slice())?;
    Ok(())
}

/// How a request counts whose whole answer was written: a registration with result 0 is kept.
pub fn served_as(request: &Request, answer: &Answer) -> Served
    ensures { result ≡ served_as request.now answer.now }
{
    let Request::Alive(_) = request else {
        return Served::Answered;
    };
    match answer {
        Answer::AliveX { result_code: 0, .. } | Answer::Alive { result_code: 0, .. } => {
            Served::Registered
        }
        _ => Served::Answered,
    }
}

// Where the answer to a registration was cut off, reports its connection to the mapper as closed.
fn close_cut<M: Mapper>(mapper: &mut M, request: &Request, conn: u64)
    ensures { AfterCut M.leaves request.now conn mapper.old mapper.new }
{
    if let Request::Alive(_) = request {
        mapper.closed(conn);
    }
}

// Answers a request that came.
fn reply<S: Stream, M: Mapper>(
    alloc: Global,
    limited: &mut Limited<'_, S>,
    mapper: &mut M,
    conn: u64,
    request: &Request,
) -> Result<Served, LookupError>
    ensures says { SaysSo (S.meaning limited.old.stream.now) (S.meaning limited.new.stream.now) limited.old.left limited.new.left
        (λ stop said. Replies M.allows M.leaves conn mapper.old mapper.new request.now stop result said) }
    ensures loan { limited.new.stream.ghost_name ≡ limited.old.stream.ghost_name }
{
    let Ok(answer) = mapper.ask(alloc, conn, request) else {
        return Err(LookupError::NoMemory);
    };
    match write_answer(alloc, limited, &answer) {
        Ok(()) => Ok(served_as(request, &answer)),
        Err(error) => {
            close_cut(mapper, request, conn);
            Err(error)
        }
    }
}

/// Serves one request that comes on this connection, in at most `limit` reads and writes. `conn` is the number by which the
/// mapper knows the connection.
///
/// A frame that spells no request is Malformed, also where it ends inside a field, and nothing is written. Before the
/// mapper has answered, a refusal leaves it as it was. The answer goes out in one write where the stream takes it whole,
/// since real nodes need it in one piece. Where the answer to a registration isn't written whole, for whatever cause,
/// the connection counts as closed, and this call reports that to the mapper before it returns: so each registration that is kept
/// has had its whole answer written. NotThere and Refused are never returned.
///
/// Source: ERTS User's Guide, Distribution Protocol, EPMD Protocol. The rule on cut answers and the limit are our own
/// choice.
pub fn serve_registry<S: Stream, M: Mapper>(
    alloc: Global,
    stream: &mut S,
    mapper: &mut M,
    conn: u64,
    limit: usize,
) -> Result<Served, LookupError>
    ensures { Serves M.allows M.leaves conn limit (S.meaning stream.old) (S.meaning stream.new) mapper.old mapper.new result }
{
    let mut limited = Limited {
        stream,
        left: limit,
    };
    let request = read_request(alloc, &mut limited)?;
    reply(alloc, &mut limited, mapper, conn, &request)
}
