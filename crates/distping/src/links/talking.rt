//! Connects to the node, talks with it, and prints what it says.

ghost use Rattle.std.specs.Prelude.{◌≡◌, Bool, IfErr, IfOk, None, Some};
ghost use Rattle.dist_talk.specs.Terms.{target_of};
ghost use Rattle.dist_talk.specs.declared.terms.Viewpoint.TheVariants as viewpoint;
ghost use Rattle.distping.specs.Coming.{Comes, OutcomeComes, StopsOnWay, TalkKept, explanation, is_left_alone, is_of_version_5};

use crate::links::attempt::{AddressAttempt, ProbeStream, Stop};
use crate::links::own_setup::{draw_challenge, setup_of};
use crate::links::speaking::speak_with;
use dist_messages::Side;
use dist_program::{TimedStep, at_port, deadline_in};
use dist_stream::connect_by;
use dist_talk::{
    AwaitedMessage, HandshakeVerdict, OwnSide, Service, Terms, Viewpoint, port_verdict, speaks_tls,
};
use distping_report::Dial;
use distping_words::Fault;
use std::net::SocketAddr;
use std::time::Instant;

// Whether a server there speaks TLS. A second connection finds that out, since some servers close without an answer to a name. It takes
// at most a second, and ends at this time at the latest. Of a tunnel that is not asked.
fn is_tls(dial: &Dial<'_>, place: &SocketAddr, until: Instant) -> bool {
    if dial.choices.is_tunnelled {
        return false;
    }
    let until = match deadline_in(dial.rt, 1) {
        Ok(second) if second < until => second,
        _ => until,
    };
    match connect_by(dial.rt, place, until) {
        Ok(mut stream) => speaks_tls(&mut stream, dial.choices.turns()),
        Err(_) => false,
    }
}

// By what a node that is dialled is judged.
fn terms_of<'d>(dial: &'d Dial<'_>) -> Terms<'d>
    ensures viewpoint { result.viewpoint ≡ viewpoint.Dialler }
    ensures target { target_of result ≡ Some dial.now.node.now }
    ensures cookie { result.cookie ≡ dial.now.cookie }
{
    Terms {
        viewpoint: Viewpoint::Dialler,
        target: Some(dial.node.bytes()),
        cookie: dial.cookie,
    }
}

// Whether the node ended the connection where its status was due.
fn is_left_alone(verdict: HandshakeVerdict) -> bool
    ensures { result ≡ is_left_alone verdict }
{
    matches!(
        verdict,
        HandshakeVerdict::Gone(AwaitedMessage::Status)
            | HandshakeVerdict::Reset(AwaitedMessage::Status)
    )
}

impl<'a> AddressAttempt<'a> {
    // A connection to the node.
    #[tactic(auto, using(crate::proofs::Ways::way_of_port))]
    fn connect_to_node(&mut self, port: u16) -> Result<ProbeStream<'a>, Stop>
        ensures kept { (self.new.dial ≡ self.old.dial) × (self.new.found.handshake ≡ self.old.found.handshake) }
        ensures stops { IfErr result StopsOnWay }
    {
        match self.connect(port, TimedStep::Port, TimedStep::Talk) {
            Ok(stream) => {
                self.dial.lines.put_connected(&self.address, port)?;
                Ok(stream)
            }
            Err(place) => {
                self.dial.lines.put_unreached("connect  ", port, place)?;
                Err(Stop::Verdict(port_verdict(place)))
            }
        }
    }

    // Talks with the node, and keeps what was said. Returns the verdict.
    fn talk(&mut self, stream: ProbeStream<'_>) -> Result<HandshakeVerdict, Fault>
        ensures comes { IfOk result (TalkKept self.new.dial self.new.found.handshake) }
        ensures dial { self.new.dial ≡ self.old.dial }
    {
        let dial = self.dial;
        let fresh = draw_challenge(dial.rt)?;
        let setup = setup_of(dial.rt, dial.own, dial.choices.flags, dial.cookie.ok())?;
        let own = OwnSide {
            side: Side::Dialler,
            setup: &setup,
            terms: terms_of(&dial),
            fresh,
        };
        let limit = dial.choices.turns();
        let is_tunnelled = dial.choices.is_tunnelled;
        let talk = speak_with(dial.rt, dial.lines.alloc, stream, &own, limit, is_tunnelled);
        self.budget.settle(TimedStep::Talk, talk.left);
        let verdict = talk.handshake.verdict(&own.terms);
        self.found.ended_after = Some(talk.ended_after);
        self.found.handshake = Some(talk.handshake);
        Ok(verdict)
    }

    // Prints the status that the node sent, what it says of itself, and what the verdict says about the cookie.
    fn put_talk(&self, verdict: HandshakeVerdict) -> Result<(), Fault> {
        let dial = self.dial;
        if let Some(status) = self.found.status() {
            dial.lines.put_status(dial.own, dial.choices.flags, status)?;
        }
        if let Some(peer) = self.found.peer() {
            dial.lines.put_peer(peer)?;
        }
        dial.lines.put_cookie(verdict)
    }

    // Whether the port mapper says that the node speaks no version above 5.
    fn is_of_version_5(&self) -> bool
        ensures { result ≡ is_of_version_5 self.now.found.registration }
    {
        match &self.found.registration {
            Some(info) => info.highest == 5,
            None => false,
        }
    }

    // The verdict, where the node may have ended the connection since it speaks another version, or TLS.
    fn explanation(&self, verdict: HandshakeVerdict, port: u16, until: Instant) -> HandshakeVerdict
        ensures { (is_tls : Bool) × (result ≡ explanation (is_of_version_5 self.now.found.registration) is_tls verdict) }
    {
        if !is_left_alone(verdict) {
            verdict
        } else if self.is_of_version_5() {
            HandshakeVerdict::Version5
        } else if is_tls(&self.dial, &at_port(&self.address, port), until) {
            HandshakeVerdict::Foreign(Side::Acceptor, Service::Tls)
        } else {
            verdict
        }
    }

    // Finds the node's port, and connects to it.
    fn reach_node(&mut self) -> Result<(u16, ProbeStream<'a>), Stop>
        ensures kept { (self.new.dial ≡ self.old.dial) × (self.new.found.handshake ≡ self.old.found.handshake) }
        ensures stops { IfErr result StopsOnWay }
    {
        let port = self.find_port()?;
        self.found.port = Some(port);
        Ok((port, self.connect_to_node(port)?))
    }

    // Talks with the node at this port, and prints what it says.
    #[tactic(auto, using(crate::proofs::Ways::explained_comes))]
    fn talk_and_print(
        &mut self,
        port: u16,
        stream: ProbeStream<'_>,
    ) -> Result<HandshakeVerdict, Fault>
        ensures comes { IfOk result (Comes self.old.dial self.new.found) }
    {
        let until = stream.deadline();
        let verdict = self.talk(stream)?;
        self.put_talk(verdict)?;
        Ok(self.explanation(verdict, port, until))
    }

    /// Finds the node's port, talks with the node, and prints what it says.
    #[tactic(auto, using(crate::proofs::Ways::stop_comes))]
    pub(crate) fn probe_node(&mut self) -> Result<HandshakeVerdict, Stop>
        // `begin` returned the attempt.
        requires { self.old.found.handshake ≡ None }
        ensures comes { OutcomeComes self.old.dial self.new.found result }
    {
        let (port, stream) = self.reach_node()?;
        Ok(self.talk_and_print(port, stream)?)
    }
}
