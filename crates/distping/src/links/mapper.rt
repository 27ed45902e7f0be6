//! Asks the port mapper at an address where the node listens, or for all names, and prints each step.

ghost use Rattle.std.specs.Prelude.{◌≡◌, ◌<◌, Ok, IfErr, IfOk, IfSome};
ghost use Rattle.distping.specs.{Coming.StopsOnWay, Places.IsPortOf, Places.IsRegistered, Places.lookup_verdict};

use crate::links::attempt::{AddressAttempt, ProbeStream, Stop};
use crate::links::front::FrontStream;
use dist_cluster::name_in_line;
use dist_epmd::PortInfo;
use dist_epmd_calls::{LookupError, ask_names, lookup};
use dist_names::ByteString;
use dist_program::{TimedStep, at_port};
use dist_stream::connect_by;
use dist_talk::{HandshakeVerdict, mapper_verdict};
use distping_words::Fault;
use std::alloc::{AllocError, Global};
use std::net::SocketAddr;
use std::time::Instant;

/// The names that the port mapper of a host knows.
#[derive(Drop)]
pub struct Names {
    /// The address at which it was asked.
    pub address: SocketAddr,
    // The front of its answer.
    text: ByteString,
    /// Whether the answer is longer than what is read.
    pub is_cut: bool,
}

/// The verdict for a lookup that failed.
pub fn lookup_verdict(error: LookupError) -> HandshakeVerdict
    ensures { result ≡ lookup_verdict error }
{
    match error {
        LookupError::NotThere => HandshakeVerdict::NotRegistered,
        LookupError::NoMemory => HandshakeVerdict::NoMemory,
        _ => HandshakeVerdict::MapperFault(error),
    }
}

// The lines of a text that have their line feed.
fn whole_lines(text: &[u8]) -> &[u8] {
    match text.iter().rposition(|byte| *byte == b'\n') {
        Some(at) => text.get(..=at).unwrap_or(b""),
        None => b"",
    }
}

// Whether two lines of port mappers name one node, or are one text.
fn is_one_line(first: &[u8], second: &[u8]) -> bool {
    match (name_in_line(first), name_in_line(second)) {
        (Some(first), Some(second)) => first == second,
        _ => first == second,
    }
}

impl Names {
    // Whether one of its lines names the node of this line, or is this line.
    fn has(&self, line: &[u8]) -> bool {
        let mut lines = self.lines().split(|byte| *byte == b'\n');
        lines.any(|own| is_one_line(own, line))
    }

    /// Adds what the port mapper at another address of the host knows, each node once.
    pub fn merge(&mut self, alloc: Global, others: &Names) -> Result<(), AllocError> {
        let mut text = Vec::from_slice(alloc, self.lines())?;
        if !text.is_empty() && !text.ends_with(b"\n") {
            text.push(b'\n')?;
        }
        for line in others.lines().split(|byte| *byte == b'\n') {
            if !line.is_empty() && !self.has(line) {
                text.extend_from_slice(line)?;
                text.push(b'\n')?;
            }
        }
        self.text = ByteString::from_vec(text);
        self.is_cut = self.is_cut || others.is_cut;
        Ok(())
    }

    /// The whole lines of what was read.
    pub fn lines(&self) -> &[u8] {
        if self.is_cut {
            whole_lines(self.text.as_slice())
        } else {
            self.text.as_slice()
        }
    }
}

impl<'a> AddressAttempt<'a> {
    // A connection to the port mapper.
    #[tactic(auto, using(crate::proofs::Ways::way_of_mapper))]
    fn connect_to_mapper(&mut self) -> Result<FrontStream<ProbeStream<'a>>, Stop>
        ensures kept { (self.new.dial ≡ self.old.dial) × (self.new.found.handshake ≡ self.old.found.handshake) }
        ensures stops { IfErr result StopsOnWay }
    {
        let port = self.dial.choices.mapper_port;
        match self.connect(port, TimedStep::Mapper, TimedStep::Lookup) {
            Ok(stream) => Ok(FrontStream::new(stream)),
            Err(place) => {
                self.dial.lines.put_unreached("epmd     ", port, place)?;
                Err(Stop::Verdict(mapper_verdict(place)))
            }
        }
    }

    // Asks for all names on this connection.
    fn names_over(&self, front: &mut FrontStream<ProbeStream<'_>>) -> Result<Names, LookupError> {
        let (_port, text) = ask_names(self.dial.lines.alloc, front, self.dial.choices.turns())?;
        Ok(Names {
            address: self.address,
            text,
            is_cut: front.is_cut(),
        })
    }

    // The names that the port mapper knows, if it answers by this time.
    fn names_by(&self, until: Instant) -> Option<Names> {
        let place = at_port(&self.address, self.dial.choices.mapper_port);
        let stream = connect_by(self.dial.rt, &place, until).ok()?;
        self.names_over(&mut FrontStream::new(stream)).ok()
    }

    /// All names that the port mapper knows.
    #[tactic(auto, using(crate::proofs::Ways::way_of_lookup))]
    pub(crate) fn ask_for_names(&mut self) -> Result<Names, Stop>
        ensures kept { (self.new.dial ≡ self.old.dial) × (self.new.found.handshake ≡ self.old.found.handshake) }
        ensures stops { IfErr result StopsOnWay }
    {
        let mut front = self.connect_to_mapper()?;
        let answer = self.names_over(&mut front);
        self.budget
            .settle(TimedStep::Lookup, front.stream.time_left());
        match answer {
            Ok(names) => Ok(names),
            Err(error) => {
                let lines = self.dial.lines;
                lines.put_no_answer(self.dial.choices.mapper_port, error)?;
                Err(Stop::Verdict(lookup_verdict(error)))
            }
        }
    }

    // Prints why there is no registration, and the names that are registered there, if the port mapper answers by this time. It asks for
    // them only to print them: once for each host.
    fn put_unregistered(&self, error: LookupError, until: Instant) -> Result<(), Fault> {
        let lines = self.dial.lines;
        lines.put_no_answer(self.dial.choices.mapper_port, error)?;
        if error != LookupError::NotThere || lines.quiet {
            return Ok(());
        }
        if !self.dial.listed.is_first(self.dial.node.host()) {
            return lines.put_listed();
        }
        if let Some(names) = self.names_by(until) {
            lines.put_names(names.lines())?;
            if names.is_cut {
                lines.put_cut()?;
            }
        }
        Ok(())
    }

    // What the port mapper answers about the node on this connection.
    fn look_up(&mut self, front: FrontStream<ProbeStream<'_>>) -> Result<PortInfo, LookupError>
        ensures kept { (self.new.dial ≡ self.old.dial) × (self.new.found.handshake ≡ self.old.found.handshake) }
    {
        let mut front = front;
        let (short, limit) = (self.dial.node.short(), self.dial.choices.turns());
        let answer = lookup(self.dial.lines.alloc, &mut front, short, limit);
        self.budget
            .settle(TimedStep::Lookup, front.stream.time_left());
        answer
    }

    // Prints the node's registration, keeps it, and returns its port.
    fn take_registration(&mut self, info: PortInfo) -> Result<u16, Fault>
        ensures kept { (self.new.dial ≡ self.old.dial) × (self.new.found.handshake ≡ self.old.found.handshake) }
        ensures registered { IfOk result (IsRegistered self.new.found.registration) }
    {
        let port = info.port;
        let lines = self.dial.lines;
        lines.put_registration(self.dial.choices.mapper_port, &info)?;
        self.found.registration = Some(info);
        Ok(port)
    }

    // Asks the port mapper for the node's port.
    #[tactic(auto, using(crate::proofs::Ways::way_of_lookup))]
    fn ask_for_port(&mut self) -> Result<u16, Stop>
        ensures kept { (self.new.dial ≡ self.old.dial) × (self.new.found.handshake ≡ self.old.found.handshake) }
        ensures registered { IfOk result (λ port. IsRegistered self.new.found.registration port × (0 < port)) }
        ensures stops { IfErr result StopsOnWay }
    {
        let front = self.connect_to_mapper()?;
        let until = front.stream.deadline();
        match self.look_up(front) {
            Ok(info) => match self.take_registration(info)? {
                0 => {
                    self.dial.lines.put_port_zero()?;
                    Err(Stop::Verdict(HandshakeVerdict::PortRefused))
                }
                port => Ok(port),
            },
            Err(error) => {
                self.put_unregistered(error, until)?;
                Err(Stop::Verdict(lookup_verdict(error)))
            }
        }
    }

    /// The node's port: the given one, or else that of its registration.
    pub fn find_port(&mut self) -> Result<u16, Stop>
        ensures given { IfSome self.old.dial.choices.port (λ port. result ≡ Ok port) }
        ensures port { IfOk result (IsPortOf self.old.dial.choices.port self.new.found.registration) }
        ensures kept { (self.new.dial ≡ self.old.dial) × (self.new.found.handshake ≡ self.old.found.handshake) }
        ensures stops { IfErr result StopsOnWay }
    {
        match self.dial.choices.port {
            Some(port) => Ok(port),
            None => self.ask_for_port(),
        }
    }
}
