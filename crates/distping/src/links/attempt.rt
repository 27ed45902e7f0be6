//! The attempt at one address of a host, and how a connection is made there.

ghost use Rattle.std.specs.Prelude.{◌≡◌, IfOk, None};
ghost use Rattle.distping.specs.declared.links.attempt.Stop.TheVariants as stop;

use dist_program::{Budget, TimedStep, at_port, without_brackets};
use dist_stream::{DeadlineStream, connect_by, deadline_after, time_left};
use dist_talk::{HandshakeVerdict, Unreached, unreached_of};
use distping_report::{Dial, Found};
use distping_words::Fault;
use std::io;
use std::net::{IpAddr, SocketAddr, TcpListener};

/// A connection that is quiet once its time is over.
pub type ProbeStream<'a> = DeadlineStream<&'a HostRuntime>;

/// What stops an attempt.
#[derive(Clone, Copy)]
pub enum Stop {
    /// A verdict before the talk.
    Verdict(HandshakeVerdict),
    /// A fault on this side.
    Fault(Fault),
}

impl From<Fault> for Stop {
    ghost from_gives = { λ fault it. it ≡ stop.Fault fault };

    fn from(fault: Fault) -> Stop {
        Stop::Fault(fault)
    }
}

/// The attempt at one address of a host.
#[derive(Drop)]
pub struct AddressAttempt<'a> {
    /// What is asked for, and where each step is printed.
    pub dial: Dial<'a>,
    /// The address.
    pub address: SocketAddr,
    /// What is left of the time of each step.
    pub budget: Budget,
    /// What was found out.
    pub found: Found,
}

// Prints an address of a host. If the host is a name, also whether the address is this machine's own: only at those can it listen.
fn put_address(
    dial: &Dial<'_>,
    address: &SocketAddr,
    addresses: &[SocketAddr],
) -> Result<(), Fault> {
    let host = dial.choices.host(dial.node);
    let has_ipv4 = addresses.iter().any(|address| address.is_ipv4());
    dial.lines.put_address(host, address, has_ipv4)?;
    let is_name = without_brackets(host).parse::<IpAddr>().is_err();
    if !dial.lines.quiet && is_name && TcpListener::bind(dial.rt, at_port(address, 0)).is_ok() {
        dial.lines.put_own_address()?;
    }
    Ok(())
}

// How a connect ended that returned this error.
fn unreached_by(error: &io::Error) -> Unreached {
    let code = error.raw_os_error().unwrap_or(0);
    unreached_of(error.kind(), u32::try_from(code).unwrap_or(0))
}

impl<'a> AddressAttempt<'a> {
    /// Prints one of these addresses, and begins the attempt at it.
    pub fn begin(
        dial: &Dial<'a>,
        address: &SocketAddr,
        addresses: &[SocketAddr],
        budget: Budget,
    ) -> Result<AddressAttempt<'a>, Fault>
        ensures dial { IfOk result (λ attempt. attempt.dial ≡ dial.now) }
        ensures address { IfOk result (λ attempt. attempt.address ≡ address.now) }
        ensures budget { IfOk result (λ attempt. attempt.budget ≡ budget) }
        ensures silent { IfOk result (λ attempt. attempt.found.handshake ≡ None) }
    {
        put_address(dial, address, addresses)?;
        Ok(AddressAttempt {
            dial: *dial,
            address: *address,
            budget,
            found: Found::nothing(Some(*address)),
        })
    }

    // A connection to a port of the address. The connect has the share of the first step, and the talk that of the second.
    fn connect_within(
        &mut self,
        port: u16,
        step: TimedStep,
        next: TimedStep,
    ) -> io::Result<ProbeStream<'a>>
        ensures kept { (self.new.dial ≡ self.old.dial) × (self.new.found.handshake ≡ self.old.found.handshake) }
    {
        let rt = self.dial.rt;
        let until = deadline_after(rt, self.budget.share(step))?;
        let made = connect_by(rt, &at_port(&self.address, port), until);
        self.budget.settle(step, time_left(rt, until));
        let stream = made?.into_inner();
        let until = deadline_after(rt, self.budget.share(next))?;
        Ok(DeadlineStream::new(stream, rt, until))
    }

    /// The same, or how the port was not reached.
    pub(crate) fn connect(
        &mut self,
        port: u16,
        step: TimedStep,
        next: TimedStep,
    ) -> Result<ProbeStream<'a>, Unreached>
        ensures kept { (self.new.dial ≡ self.old.dial) × (self.new.found.handshake ≡ self.old.found.handshake) }
    {
        match self.connect_within(port, step, next) {
            Ok(stream) => Ok(stream),
            Err(error) => Err(unreached_by(&error)),
        }
    }
}
