//! Plays one talk: connects, says, and listens. What is seen in each step is kept, and judged.

ghost use Rattle.std.specs.Prelude.{◌≡◌, ◌<◌, [], length, IfOk, OnOk};
ghost use Rattle.distcheck.specs.Playing.{standing_of, standing_after};
ghost use Rattle.distcheck.specs.Trying.{try_verdict, verdict_by_level};

use crate::calls::{CallPlaces, OwnPort};
use crate::fault::Fault;
use crate::queue::QueuedTalk;
use crate::seen::{PlayedStep, StepFact};
use crate::standing::TalkState;
use crate::talk_link::{SocketLink, TalkLink};
use crate::waiting::{listen, milliseconds_since, now, say};
use dist_conformance::{Action, Level, TalkStep, TalkVerdict, registered_port};
use dist_epmd::NodeInfo;
use dist_program::at_port;
use dist_secret::Cookie;
use std::io::{self, ErrorKind};
use std::net::SocketAddr;
use std::thread::sleep;
use std::time::Duration;

/// How often a connect is tried that fails, and how many milliseconds after another: a node that is busy, or was just started anew, gets a second.
const CONNECTS: u32 = 5;

const PAUSE: u64 = 200;

/// How many milliseconds a node may take to start, until it connects to its port mapper. Our own choice: a machine may be busy.
const START: u32 = 20000;

/// Where talks are played.
#[derive(Clone, Copy)]
pub struct Setting<'a> {
    /// The runtime, for sockets and the clock.
    pub rt: &'a HostRuntime,
    /// The node's address, if a node is checked.
    pub node: Option<SocketAddr>,
    /// Whether that is a tunnel of TLS to it.
    pub is_tunnelled: bool,
    /// The port mapper's address, if one is checked.
    pub mapper: Option<SocketAddr>,
    /// How the node is made to dial, if it is.
    pub call: Option<CallPlaces<'a>>,
    /// Where orders to start the node are taken, if it is started.
    pub start: Option<SocketAddr>,
    /// The cookie.
    pub cookie: &'a Cookie,
}

impl Setting<'_> {
    /// How long after one try of a talk the next begins: the node may still hold its name. A tunnel takes a while to end a connection.
    pub fn breath(&self) -> Duration {
        Duration::from_millis(if self.is_tunnelled { 2000 } else { 400 })
    }
}

/// One try of a talk. Only [`play`] makes one.
#[derive(Drop)]
pub struct TalkTry {
    /// What was seen in its steps, as far as they were made.
    pub played: Vec<PlayedStep>,
    /// The verdict.
    pub verdict: TalkVerdict,
    /// In words, what came and is not what was wanted.
    pub why: String,
    // How many milliseconds it took.
    took: u32,
}

impl TalkTry {
    /// How many milliseconds it took.
    pub fn took(&self) -> u32 {
        self.took
    }
}

// The connections of a talk that is being played, and where it makes them.
#[derive(Drop)]
struct TalkPlay<'a> {
    setting: Setting<'a>,
    links: Vec<SocketLink>,
    // Where the node connects to us, if it does.
    own: Option<OwnPort>,
    // The port that a node has registered that was started for this talk.
    registered: Option<u16>,
}

impl<'a> TalkPlay<'a> {
    // What an error of a connect shows.
    fn seen_in(&self, error: &io::Error) -> Result<StepFact, Fault> {
        if matches!(error.raw_os_error(), Some(23 | 24)) {
            return Err(Fault::NoDescriptors);
        }
        // A node that was started for this talk may be gone, and the one that is checked is not.
        if error.kind() == ErrorKind::ConnectionRefused && self.registered.is_none() {
            Ok(StepFact::Refused)
        } else {
            Ok(StepFact::Failed("no connection was taken"))
        }
    }

    fn connect(
        &mut self,
        conn: u8,
        address: Option<SocketAddr>,
        is_tunnelled: bool,
    ) -> Result<StepFact, Fault> {
        let Some(address) = address else {
            return Ok(StepFact::Failed("nobody to connect to"));
        };
        let mut seen = StepFact::Made;
        for _ in 0..CONNECTS {
            match TalkLink::open(self.setting.rt, conn, &address, is_tunnelled) {
                Ok(link) => {
                    self.links.push(link)?;
                    return Ok(StepFact::Made);
                }
                Err(error) => seen = self.seen_in(&error)?,
            }
            sleep(self.setting.rt, Duration::from_millis(PAUSE));
        }
        Ok(seen)
    }

    // Takes the connection that the node makes to our port within this many milliseconds, or wants that none comes.
    fn take(&mut self, conn: u8, limit: u32, is_wanted: bool) -> Result<StepFact, Fault> {
        let link = match &self.own {
            Some(own) => own.accept(conn, limit),
            None => None,
        };
        let Some(link) = link else {
            return Ok(if is_wanted {
                StepFact::Failed("the node does not connect")
            } else {
                StepFact::Made
            });
        };
        self.links.push(link)?;
        Ok(if is_wanted {
            StepFact::Made
        } else {
            StepFact::Came
        })
    }

    // Has the node dial what is registered. What is seen where it was not made to.
    fn order_dial(&mut self, info: &NodeInfo) -> Result<Option<StepFact>, Fault> {
        let rt = self.setting.rt;
        let Some(places) = self.setting.call else {
            return Ok(Some(StepFact::Failed("nobody makes the node dial")));
        };
        if self.own.is_none() {
            self.own = OwnPort::register(rt, &places.mapper, info)?;
        }
        let Some(own) = &mut self.own else {
            return Ok(Some(StepFact::Failed("the talk's name is not registered")));
        };
        let is_taken = own.order_dial(rt, &places, info.name.as_slice())?;
        Ok((!is_taken).then(|| StepFact::Failed("nobody takes orders to dial")))
    }

    // Has a node started whose port mapper has our port. What is seen where it was not.
    fn order_start(&mut self) -> Result<Option<StepFact>, Fault> {
        let rt = self.setting.rt;
        let Some(orders) = self.setting.start else {
            return Ok(Some(StepFact::Failed("nobody starts the node")));
        };
        self.own = OwnPort::open(rt, &orders).ok();
        let Some(own) = &mut self.own else {
            return Ok(Some(StepFact::Failed("no port is free")));
        };
        let is_taken = own.order_start(rt, &orders)?;
        Ok((!is_taken).then(|| StepFact::Failed("nobody takes orders to start")))
    }

    // Where the node takes connections: at the port that it has registered, if it was started for this talk.
    fn node_place(&self) -> Option<SocketAddr> {
        match (self.setting.node, self.registered) {
            (Some(node), Some(port)) => Some(at_port(&node, port)),
            (node, _) => node,
        }
    }

    // Makes a step on the connection of its letter. There is at most one of each.
    fn use_link(&mut self, state: &TalkState<'_>, step: &TalkStep) -> Result<StepFact, Fault> {
        let Some(at) = self.links.iter().position(|link| link.conn == step.conn) else {
            return Ok(StepFact::Failed("the connection is not open"));
        };
        let rt = self.setting.rt;
        match &step.action {
            Action::Say(saying) => return say(rt, &mut self.links[at], state, saying),
            Action::Hear(_) | Action::Want(_) | Action::Tell(_) => {
                let seen = listen(rt, &mut self.links[at], state, step)?;
                if let StepFact::Heard(heard) = &seen {
                    let came = state.came_on(step.conn, heard.bytes())?;
                    self.registered = registered_port(&came).or(self.registered);
                }
                return Ok(seen);
            }
            Action::Half => {
                self.links[at].half();
                return Ok(StepFact::Made);
            }
            Action::Reset => self.links[at].reset(),
            _ => {}
        }
        let _ = self.links.swap_remove(at);
        Ok(StepFact::Made)
    }

    fn make(&mut self, state: &TalkState<'_>, step: &TalkStep) -> Result<StepFact, Fault> {
        let limit = state.terms.limit;
        match &step.action {
            Action::Dial => self.connect(step.conn, self.node_place(), self.setting.is_tunnelled),
            Action::Ask => self.connect(step.conn, self.setting.mapper, false),
            Action::Call(none, info) => match self.order_dial(info)? {
                Some(seen) => Ok(seen),
                None => self.take(step.conn, none.unwrap_or(limit), none.is_none()),
            },
            Action::Start => match self.order_start()? {
                Some(seen) => Ok(seen),
                None => self.take(step.conn, START, true),
            },
            Action::Take => self.take(step.conn, limit, true),
            Action::Wait(time) => {
                sleep(self.setting.rt, Duration::from_millis(u64::from(*time)));
                Ok(StepFact::Made)
            }
            _ => self.use_link(state, step),
        }
    }
}

// Makes these steps of a talk, as far as it goes on. Returns how many milliseconds that took.
#[tactic(auto, using(crate::proofs::Steps::none_yet, crate::proofs::Steps::one_more))]
fn play_steps(
    setting: &Setting<'_>,
    steps: &[TalkStep],
    state: &mut TalkState<'_>,
    played: &mut Vec<PlayedStep>,
) -> Result<u32, Fault>
    // The talk begins.
    requires { played.old.items ≡ [] }
    ensures { OnOk result (standing_of state.new ≡ standing_after (standing_of state.old) steps.now played.new.items) }
{
    let begun = now(setting.rt)?;
    let mut play = TalkPlay {
        setting: *setting,
        links: Vec::new(setting.rt.alloc()),
        own: None,
        registered: None,
    };
    for step in steps {
        if state.is_over {
            break;
        }
        let seen = play.make(state, step)?;
        state.take(step, &seen)?;
        let at = milliseconds_since(setting.rt, begun)?;
        played.push(PlayedStep { at, seen })?;
    }
    milliseconds_since(setting.rt, begun)
}

// The verdict that counts: at level may nothing deviates, and at any other nothing is only noted.
fn verdict_by_level(level: Level, verdict: TalkVerdict) -> TalkVerdict
    ensures { result ≡ verdict_by_level level verdict }
{
    match (level, verdict) {
        (Level::May, TalkVerdict::Deviates) => TalkVerdict::Noted,
        (Level::Must | Level::Should | Level::Otp, TalkVerdict::Noted) => TalkVerdict::Kept,
        (_, verdict) => verdict,
    }
}

/// Plays a talk: what was seen, and the verdict.
pub fn play<'a>(setting: &Setting<'a>, queued: &QueuedTalk<'a>) -> Result<TalkTry, Fault>
    ensures { IfOk result (λ one. one.verdict ≡ try_verdict queued.now one.played.items) }
{
    let alloc = setting.rt.alloc();
    let steps = queued.talk.steps.as_slice();
    let mut state = TalkState::new(alloc, queued.terms)?;
    let mut played = Vec::new(alloc);
    let took = play_steps(setting, steps, &mut state, &mut played)?;
    let verdict = verdict_by_level(queued.level, state.verdict_in(steps.len(), played.len()));
    let TalkState { why, .. } = state;
    Ok(TalkTry {
        played,
        verdict,
        why,
        took,
    })
}
