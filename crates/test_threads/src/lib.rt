//! Tests, from outside, of steps that are foretold or used up, of driven ends, of the queue of dial orders, of nodes and registries under
//! locks, and of the audit's results for histories; of worlds seen from both sides; of runs on sockets of this host, each audited; of a quiet
//! socket, and of a connection that nobody accepts; and of what is left if memory is refused. Every listener is at a port that the system
//! chooses. Scripts of one node or several, bytes and names, and what is read and written of them, are in the rows of `test_rows`. A program
//! joins a node, and leaves it, in `bin/check_joining`.
//!
//! They are a crate of their own, so that no crate is proved again for its tests.
#![tactic(auto)]

#[cfg(test)]
mod answers;
#[cfg(test)]
mod audits;
#[cfg(test)]
mod drives;
#[cfg(test)]
mod memory;
#[cfg(test)]
mod runs;
#[cfg(test)]
mod seats;
#[cfg(test)]
mod setting;
#[cfg(test)]
mod sockets;
#[cfg(test)]
mod system;
#[cfg(test)]
mod threads;
#[cfg(test)]
mod worlds;
