//! A registry, and the answer to its newest request.
ghost use Rattle.std.specs.{Prelude.◌≡◌, Prelude.None, Int.w16};
ghost use Rattle.dist_epmd.specs.Registrations.{opening, after_closed};
ghost use Rattle.dist_frames.specs.Stream.{first_body};
ghost use Rattle.distnode_c.specs.Desks.{IsAnswered, IsReceivedByDesk, registered_number};

use dist_epmd::{Answer, EpmdError, Registry, Request, decode_request};
use dist_epmd_calls::Mapper;
use dist_frames::first_body;
use std::alloc::Global;

/// A registry of the port mapper, and its answer to the newest request that it took.
#[derive(Drop)]
pub struct RegistryDesk {
    /// The registry.
    pub registry: Registry,
    /// The newest answer, and none before the first request.
    pub last: Option<Answer>,
}

/// Why no request was taken. Each leaves the desk unchanged.
#[derive(Clone, Copy)]
pub enum DeskError {
    /// No whole frame stands at the front.
    Awaits,
    /// The frame is no request, or no memory was left.
    Request(EpmdError),
}

/// Whether an answer registers the node that asked, as 1 or 0.
pub fn registered_number(answer: &Answer) -> u32
    ensures { result ≡ registered_number answer.now }
{
    match answer {
        Answer::AliveX { result_code: 0, .. } | Answer::Alive { result_code: 0, .. } => 1,
        _ => 0,
    }
}

impl RegistryDesk {
    /// A desk of a registry without nodes. It takes no memory.
    pub fn new(alloc: Global, port: u16, first: u32) -> RegistryDesk
        ensures registry { result.registry ≡ opening port first }
        ensures last { result.last ≡ None }
    {
        RegistryDesk {
            registry: Registry::new(alloc, port, first),
            last: None,
        }
    }

    fn answer(&mut self, alloc: Global, conn: u64, request: &Request) -> Result<(), EpmdError>
        ensures { IsAnswered result conn request.now self.old self.new }
    {
        match self.registry.ask(alloc, conn, request) {
            Ok(answer) => {
                self.last = Some(answer);
                Ok(())
            }
            Err(_) => Err(EpmdError::NoMemory),
        }
    }

    /// Answers the request in the frame at the front of these bytes, and returns how many bytes it has with its length.
    pub fn receive(&mut self, alloc: Global, conn: u64, bytes: &[u8]) -> Result<usize, DeskError>
        ensures { IsReceivedByDesk result conn (first_body w16 bytes.now) self.old self.new }
    {
        let Some(body) = first_body(bytes) else {
            return Err(DeskError::Awaits);
        };
        let taken = 2 + body.len();
        match decode_request(alloc, body) {
            Ok(request) => match self.answer(alloc, conn, &request) {
                Ok(()) => Ok(taken),
                Err(error) => Err(DeskError::Request(error)),
            },
            Err(error) => Err(DeskError::Request(error)),
        }
    }
}
