//! A registry that threads share.
ghost use Rattle.std.specs.Prelude.{◌≡◌};

use dist_drive::Mapper;
use dist_epmd::{Answer, Registry, Request};
use std::alloc::{AllocError, Global};
use std::sync::{Mutex, Wait};

/// A registry under a lock. Whenever the lock is held, no two registrations share a name, a connection or a creation, there
/// are at most 1,024, and the next creation is above all of theirs: that is so of every registry.
#[derive(Drop)]
pub struct LockedRegistry {
    registry: Mutex<Registry>,
}

impl LockedRegistry {
    /// This registry under a lock.
    pub fn new(registry: Registry) -> LockedRegistry {
        LockedRegistry {
            registry: Mutex::new(registry),
        }
    }
}

/// The registry, as one thread asks it.
#[derive(Drop)]
pub struct SharedMapper<'a, R: Wait> {
    rt: &'a R,
    shared: &'a LockedRegistry,
}

impl<'a, R: Wait> SharedMapper<'a, R> {
    /// This registry, asked with this handle.
    pub fn new(rt: &'a R, shared: &'a LockedRegistry) -> SharedMapper<'a, R> {
        SharedMapper { rt, shared }
    }
}

impl<'a, R: Wait> Mapper for SharedMapper<'a, R> {
    ghost use Rattle.dist_epmd.specs.Registrations.{Registrations, IsLegal};

    // Other threads may have changed it before and after: some legal registry gives this answer.
    ghost allows = { λ before conn request answer after. (b : Registrations) × (c : Registrations) × IsLegal b
        × ⟦<Registry as Mapper>⟧.allows b conn request answer c };

    // No answer shows what a closed connection left.
    ghost leaves = { λ before conn after. Unit {0} };

    fn ask(&mut self, alloc: Global, conn: u64, request: &Request) -> Result<Answer, AllocError> {
        let mut registry = self.shared.registry.lock(self.rt);
        // that shows what the registry keeps
        let _none = registry.port_please(&[]);
        registry.ask(alloc, conn, request)
    }

    fn closed(&mut self, conn: u64) {
        self.shared.registry.lock(self.rt).closed(conn);
    }
}
