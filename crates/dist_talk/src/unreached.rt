//! How a connect failed, and what that means.

ghost use Rattle.std.specs.Prelude.{◌≡◌};
ghost use Rattle.dist_talk.specs.Unreached.{mapper_verdict, port_verdict, unreached_by_number, unreached_of, unreached_word};

use crate::verdict::HandshakeVerdict;
use std::io::ErrorKind;

/// How a connect failed, by what the system answered.
#[derive(Clone, Copy, Debug, PartialEq, Eq)]
pub enum Unreached {
    /// The host answered that nobody listens there, or a firewall answered so in its place.
    Refused,
    /// The connection was reset or aborted while it was made.
    Reset,
    /// This machine has no route to the address, or no address of that kind itself.
    NoRoute,
    /// This machine has no local port left for another connection to that address.
    NoLocalPort,
    /// A router, a firewall or this machine answered that the host cannot be reached.
    HostDown,
    /// A firewall or a rule of this machine answered that it is not allowed.
    Prohibited,
    /// No answer came in time.
    NoAnswer,
    /// Memory ran out here.
    NoMemory,
    /// This machine, or this process, may have no more descriptors open.
    NoDescriptors,
    /// The system failed in another way.
    Failed,
}

// How a connect failed, by an error number of the system that has no kind of its own. The numbers are those of Linux: ENONET and
// EHOSTDOWN, as for an ICMP answer that the host is not known; ENOPROTOOPT, as for one that it refuses the protocol; EAFNOSUPPORT,
// where the system has no addresses of that kind; ENFILE and EMFILE, where no descriptor is left.
fn unreached_by_number(number: u32) -> Unreached
    ensures { result ≡ unreached_by_number number }
{
    match number {
        64 | 112 => Unreached::HostDown,
        92 => Unreached::Prohibited,
        97 => Unreached::NoRoute,
        23 | 24 => Unreached::NoDescriptors,
        _ => Unreached::Failed,
    }
}

/// How a connect failed whose error has this kind, and this number of the system's, 0 where it has none. Linux maps answers of ICMP
/// to its numbers: `tcp(7)`, `icmp(7)`. A route that drops everything gives an invalid input.
pub fn unreached_of(kind: ErrorKind, number: u32) -> Unreached
    ensures { result ≡ unreached_of kind number }
{
    match kind {
        ErrorKind::ConnectionRefused => Unreached::Refused,
        ErrorKind::ConnectionReset | ErrorKind::ConnectionAborted | ErrorKind::BrokenPipe => {
            Unreached::Reset
        }
        ErrorKind::NetworkUnreachable | ErrorKind::NetworkDown | ErrorKind::InvalidInput => {
            Unreached::NoRoute
        }
        ErrorKind::AddrNotAvailable => Unreached::NoLocalPort,
        ErrorKind::HostUnreachable => Unreached::HostDown,
        ErrorKind::PermissionDenied => Unreached::Prohibited,
        ErrorKind::TimedOut | ErrorKind::WouldBlock => Unreached::NoAnswer,
        ErrorKind::OutOfMemory => Unreached::NoMemory,
        _ => unreached_by_number(number),
    }
}

impl Unreached {
    /// The variant's name, as a program prints it.
    pub fn name(self) -> &'static str
        ensures { result.now ≡ unreached_word self }
    {
        match self {
            Unreached::Refused => "Refused",
            Unreached::Reset => "Reset",
            Unreached::NoRoute => "NoRoute",
            Unreached::NoLocalPort => "NoLocalPort",
            Unreached::HostDown => "HostDown",
            Unreached::Prohibited => "Prohibited",
            Unreached::NoAnswer => "NoAnswer",
            Unreached::NoMemory => "NoMemory",
            Unreached::NoDescriptors => "NoDescriptors",
            Unreached::Failed => "Failed",
        }
    }

    /// What was answered, for a line after a port.
    pub fn text(self) -> &'static str {
        match self {
            Unreached::Refused => "the connection was refused",
            Unreached::Reset => "the connection was reset",
            Unreached::NoRoute => "no route: this machine has no way to that address",
            Unreached::NoLocalPort => "this machine has no local port left for that address",
            Unreached::HostDown =>
                "host unreachable: something on the way, or this machine, answers so",
            Unreached::Prohibited =>
                "prohibited: something on the way, or this machine, does not allow it",
            Unreached::NoAnswer => "no answer",
            Unreached::NoMemory => "out of memory here",
            Unreached::NoDescriptors => "out of descriptors here",
            Unreached::Failed => "the system could not connect",
        }
    }
}

/// What it means that a connect to the port mapper's port failed in this way.
pub fn mapper_verdict(unreached: Unreached) -> HandshakeVerdict
    ensures { result ≡ mapper_verdict unreached }
{
    match unreached {
        Unreached::Refused => HandshakeVerdict::MapperRefused,
        Unreached::NoMemory => HandshakeVerdict::NoMemory,
        Unreached::NoDescriptors => HandshakeVerdict::NoDescriptors,
        other => HandshakeVerdict::MapperUnreachable(other),
    }
}

/// What it means that a connect to the node's port failed in this way.
pub fn port_verdict(unreached: Unreached) -> HandshakeVerdict
    ensures { result ≡ port_verdict unreached }
{
    match unreached {
        Unreached::Refused => HandshakeVerdict::PortRefused,
        Unreached::NoMemory => HandshakeVerdict::NoMemory,
        Unreached::NoDescriptors => HandshakeVerdict::NoDescriptors,
        other => HandshakeVerdict::PortUnreachable(other),
    }
}
