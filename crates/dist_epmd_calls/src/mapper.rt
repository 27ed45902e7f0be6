//! Who answers the requests.

ghost use Rattle.std.specs.Prelude.{◌≡◌, IfOk};
ghost use Rattle.dist_epmd.specs.Registrations.{registered_info};
ghost use Rattle.dist_epmd_calls.specs.Mapping.{port_answer, names_answer};

use dist_epmd::{Answer, Registry, Request};
use std::alloc::{AllocError, Global};

/// Who answers the requests of the port mapper's clients: the registry itself, or a registry behind a lock.
///
/// Its meaning is which answers it allows, its state after them, and its state after a connection is closed.
pub trait Mapper {
    ghost use Rattle.std.specs.Prelude.{◌≡◌, ℕ, IfOk, OnErr};
    ghost use Rattle.dist_epmd.specs.declared.message.Request.{Request};
    ghost use Rattle.dist_epmd.specs.declared.message.Answer.{Answer};

    // before, connection, request, answer, after
    ghost allows: { Self → ℕ → Request → Answer → Self → Type 0 };

    // before, connection, after
    ghost leaves: { Self → ℕ → Self → Type 0 };

    /// Answers a request that came on a connection. A refusal changes nothing.
    fn ask(&mut self, alloc: Global, conn: u64, request: &Request) -> Result<Answer, AllocError>
        ensures ok { IfOk result (λ answer. allows self.old conn request.now answer self.new) }
        ensures err { OnErr result (self.new ≡ self.old) };

    /// Drops what is registered on a connection that is closed.
    fn closed(&mut self, conn: u64)
        ensures { leaves self.old conn self.new };
}

// The answer to a lookup.
fn port_answer(alloc: Global, registry: &Registry, name: &[u8]) -> Result<Answer, AllocError>
    ensures { IfOk result (λ answer. answer ≡ port_answer (registered_info name.now registry.now)) }
{
    match registry.port_please(name) {
        Some(info) => Ok(Answer::Port(Ok(info.try_clone(alloc)?))),
        None => Ok(Answer::Port(Err(1))),
    }
}

// The answer to a question for all names.
fn names_answer(alloc: Global, registry: &Registry) -> Result<Answer, AllocError>
    ensures { IfOk result (λ answer. answer ≡ names_answer registry.now) }
{
    Ok(Answer::Names {
        port: registry.port() as u32,
        text: registry.lines(alloc)?,
    })
}

impl Mapper for Registry {
    ghost use Rattle.dist_epmd_calls.specs.Mapping.{Allows, Leaves};

    ghost allows = { Allows };

    ghost leaves = { Leaves };

    fn ask(&mut self, alloc: Global, conn: u64, request: &Request) -> Result<Answer, AllocError> {
        match request {
            Request::Alive(info) => self.alive(alloc, conn, info),
            Request::PortPlease(name) => port_answer(alloc, self, name.as_slice()),
            Request::Names => names_answer(alloc, self),
        }
    }

    fn closed(&mut self, conn: u64) {
        Registry::closed(self, conn);
    }
}
