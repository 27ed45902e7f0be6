//! What the command line asks for.

ghost use Rattle.std.specs.{Prelude.◌≡◌, Prelude.◌+◌, Prelude.◌*◌, Prelude.IfOk, Prelude.IfSome, Prelude.None, Str.IsUtf8, Duration.as_nanos};
ghost use Rattle.dist_names.specs.NodeName.{host_of};
ghost use Rattle.distping_words.specs.Faults.{Fits, GivesName};
ghost use Rattle.distping_words.specs.declared.command.Instead.TheVariants as instead;

use crate::fault::Fault;
use crate::refusal::{Refusal, refuse};
use crate::target_words::{GivenPort, push_target};
use clap::error::ErrorKind;
use clap::{Arg, ArgAction, ArgMatches, Command, Error};
use dist_cluster::Target;
use dist_flags::{Dflag, Release};
use dist_names::{Flags, NameError, NodeName, number_in};
use dist_program::{
    CONNECT_SECONDS, WordFault, command_line, name_in, option_number, parser_sentence,
    with_options, with_word,
};
use std::alloc::Global;
use std::time::Duration;

// How many turns a lookup or a talk may take beside one for each second. A port mapper writes each line of its names by itself, so it
// may take one read for each node. Our own choice.
const TURNS_IN_PLENTY: usize = 4096;

/// What is done instead of dialling.
#[derive(Drop)]
pub enum Instead {
    /// Print the help.
    Help,
    /// Print the version.
    Version,
    /// Refuse the words.
    Refusal(Refusal),
}

impl From<Refusal> for Instead {
    ghost from_gives = { λ refusal made. made ≡ instead.Refusal refusal };

    fn from(refusal: Refusal) -> Instead {
        Instead::Refusal(refusal)
    }
}

/// Which cookie is tried.
#[derive(Clone, Copy)]
pub enum CookieSource<'a> {
    /// That of the user's home folder, if it has one.
    Home,
    /// That of this file.
    File(&'a str),
    /// None: the talk stops at the node's challenge.
    Nowhere,
}

/// What is dialled, and how.
#[derive(Drop)]
pub struct Wanted<'a> {
    /// The targets. There is at least one, unless the program listens or reads a capture, or a file names more.
    pub targets: Vec<Target>,
    /// The ports that the words for nodes give.
    pub ports: Vec<GivenPort>,
    /// The name that the probe gives itself, if one is given.
    pub name: Option<NodeName>,
    /// The rest.
    pub choices: Choices<'a>,
}

/// What is chosen beside names.
#[derive(Clone, Copy)]
pub struct Choices<'a> {
    /// The cookie.
    pub cookie: CookieSource<'a>,
    /// What the probe announces.
    pub flags: Flags,
    /// The port of the port mapper.
    pub mapper_port: u16,
    /// The node's port, if the port mapper is not asked.
    pub port: Option<u16>,
    /// The host to connect to, if it is not that of the node's name.
    pub address: Option<&'a str>,
    /// Whether a tunnel of TLS is at that address and port, so that frames have lengths of 4 bytes.
    pub is_tunnelled: bool,
    /// The most seconds that a connect, a lookup and a talk may each take, at least one.
    pub seconds: u16,
    /// The same, if the command line gives it; then it also limits the wait for a connection.
    pub patience: Option<u16>,
    /// The port at which one connection is taken, instead of dialling.
    pub listen: Option<u16>,
    /// Whether a JSON object is printed for each node, instead of the lines.
    pub json: bool,
    /// Whether the cookie's file is read even if others than its owner may use it.
    pub takes_any_file: bool,
    /// How much is printed of a probe.
    pub detail: Detail,
    /// The file that names more nodes.
    pub roster: Option<&'a str>,
    /// Whether every pair is printed, also the good ones of more than two nodes.
    pub all_pairs: bool,
    /// How often the nodes are probed to see what changes, if they are watched.
    pub watch: Option<Rhythm>,
    /// The file in which what is observed of watched nodes is written after each round, if there is one.
    pub metrics: Option<&'a str>,
    /// The capture that is read, instead of dialling.
    pub capture: Option<&'a str>,
}

/// How much is printed of a probe, unless objects are.
#[derive(Clone, Copy, PartialEq, Eq)]
pub enum Detail {
    /// The verdict.
    Verdict,
    /// Each step, and the remedy.
    Steps,
    /// The names of the node's flags, too.
    Flags,
}

/// How often nodes are probed that are watched.
#[derive(Clone, Copy)]
pub struct Rhythm {
    /// The seconds from the beginning of a round to that of the next.
    pub seconds: u16,
    /// The number of rounds; if the command line gives none, more than any run lasts.
    pub rounds: u64,
}

// Bytes as text; none if they are no UTF-8.
fn text_of(bytes: &[u8]) -> &str
    ensures { IsUtf8 bytes.now → result.now ≡ bytes.now }
{
    match std::str::from_utf8(bytes) {
        Ok(text) => text,
        Err(_) => "",
    }
}

impl<'a> Choices<'a> {
    /// The host to connect to for a node.
    pub fn host<'b>(&'b self, node: &'b NodeName) -> &'b str
        ensures given { IfSome self.now.address (λ host. result.now ≡ host.now) }
        ensures own { self.now.address ≡ None → IsUtf8 (host_of node.now) → result.now ≡ host_of node.now }
    {
        match self.address {
            Some(host) => host,
            None => text_of(node.host()),
        }
    }

    /// How long the resolver may take.
    pub fn limit(&self) -> Duration
        ensures { as_nanos result ≡ self.now.seconds * 1_000_000_000 }
    {
        Duration::from_secs(u64::from(self.seconds))
    }

    /// The most reads and writes of a lookup or a talk. The clock ends it earlier: a quiet turn takes a second, and there are turns to
    /// spare for the others.
    pub fn turns(&self) -> usize
        ensures { result ≡ self.now.seconds + 4096 }
    {
        self.seconds as usize + TURNS_IN_PLENTY
    }
}

// The program's name.
const PROGRAM: &str = "distping";

// The options that take no value.
const SWITCHES: [&str; 6] = [
    "no-cookie",
    "json",
    "cookie-unsafe",
    "all-pairs",
    "quiet",
    "verbose",
];

// The options that take a text.
const VALUES: [&str; 8] = [
    "name",
    "cookie",
    "flags",
    "address",
    "nodes",
    "capture",
    "tls-through",
    "prometheus",
];

// The options that take a number.
const VALUES_IN_DIGITS: [&str; 6] = ["epmd-port", "port", "listen", "seconds", "watch", "count"];

// The numbers from 1 to 65,535 of these options, each if it is given.
fn numbers_in(alloc: Global, matches: &ArgMatches<'_>) -> Result<[Option<u16>; 6], WordFault> {
    let mut numbers = [None; 6];
    for at in 0..6 {
        let id = VALUES_IN_DIGITS[at];
        numbers[at] = option_number(alloc, PROGRAM, id, matches.get_str(id))?;
    }
    Ok(numbers)
}

// The command line: the names of the nodes, and the options.
fn program<'a>(alloc: Global) -> Result<Command<'a>, Refusal> {
    let nodes = Arg::new(alloc, "node")
        .num_args(1..)
        .action(ArgAction::Append);
    let program = command_line(alloc, PROGRAM, nodes, &SWITCHES, &VALUES)?;
    Ok(with_options(alloc, program, &VALUES_IN_DIGITS, ArgAction::Set)?)
}

// The flags that a text names, or writes in hexadecimal digits.
fn flags_of(text: &str) -> Option<Flags> {
    let mut flags = Flags(0);
    for word in text.split(',') {
        match Dflag::of_name(word.as_bytes()) {
            Some(flag) => flags = Flags(flags.0 | flag.flags().0),
            None => return number_in(text.as_bytes(), 16).map(Flags),
        }
    }
    Some(flags)
}

// The flags that the probe announces: those that OTP 23 to 29 accept, unless others are given. `DFLAG_NAME_ME` is refused: the probe
// has a name.
fn flags_in(alloc: Global, matches: &ArgMatches<'_>) -> Result<Flags, Refusal> {
    let Some(text) = matches.get_str("flags") else {
        return Ok(Release::Otp28.required());
    };
    match flags_of(text) {
        Some(flags) if !flags.has(Flags::NAME_ME) => Ok(flags),
        _ => {
            let front =
                "--flags takes names of flags, joined by commas, or hexadecimal digits, and no NAME_ME: ";
            Err(refuse(with_word(alloc, front, text)))
        }
    }
}

/// The name that these bytes spell.
pub fn parse_name(alloc: Global, bytes: &[u8]) -> Result<NodeName, Fault>
    ensures { GivesName bytes.now result }
{
    match NodeName::new(alloc, bytes) {
        Ok(name) => Ok(name),
        Err(NameError::NoMemory) => Err(Fault::NoMemory),
        Err(NameError::TooShort | NameError::TooLong | NameError::BadByte | NameError::BadAt) =>
            Err(Fault::BadName),
    }
}

// The probe's own name, if one is given.
fn own_name_in(alloc: Global, matches: &ArgMatches<'_>) -> Result<Option<NodeName>, WordFault> {
    match matches.get_str("name") {
        Some(word) => Ok(Some(name_in(alloc, word)?)),
        None => Ok(None),
    }
}

// Adds the targets that the command line names, and the ports that it gives them.
fn push_targets(
    alloc: Global,
    matches: &ArgMatches<'_>,
    targets: &mut Vec<Target>,
    ports: &mut Vec<GivenPort>,
) -> Result<(), Refusal> {
    for word in matches.get_strs("node").unwrap_or(&[]) {
        if let Some(bad) = push_target(alloc, targets, ports, word.as_bytes())? {
            let rule = bad.rule(word.starts_with('@'));
            return Err(refuse(with_word(alloc, rule, word)));
        }
    }
    Ok(())
}

fn cookie_in<'a>(matches: &ArgMatches<'a>) -> Result<CookieSource<'a>, Fault> {
    match (matches.get_flag("no-cookie"), matches.get_str("cookie")) {
        (true, Some(_)) => Err(Fault::TwoCookies),
        (true, None) => Ok(CookieSource::Nowhere),
        (false, Some(file)) => Ok(CookieSource::File(file)),
        (false, None) => Ok(CookieSource::Home),
    }
}

fn detail_in(matches: &ArgMatches<'_>) -> Result<Detail, Fault> {
    match (matches.get_flag("quiet"), matches.get_flag("verbose")) {
        (true, true) => Err(Fault::TwoDetails),
        (true, false) => Ok(Detail::Verdict),
        (false, true) => Ok(Detail::Flags),
        (false, false) => Ok(Detail::Steps),
    }
}

// Whether a host is followed by a port, as in `10.0.0.2:4369` and `[::1]:4369`.
fn has_port(host: &str) -> bool {
    match host.rsplit_once(':') {
        Some((front, _)) => front.ends_with(']') || !front.contains(':'),
        None => false,
    }
}

// The host to connect to, if one is given.
fn address_in<'a>(alloc: Global, matches: &ArgMatches<'a>) -> Result<Option<&'a str>, Refusal> {
    match matches.get_str("address") {
        Some(host) if has_port(host) => {
            let front = "--address takes a host, and no port behind it: ";
            Err(refuse(with_word(alloc, front, host)))
        }
        address => Ok(address),
    }
}

// Where a tunnel is open, as a host and its port.
fn tunnel_of(text: &str) -> Option<(&str, u16)> {
    let (host, port) = text.rsplit_once(':')?;
    let port = u16::try_from(number_in(port.as_bytes(), 10)?).ok()?;
    if host.is_empty() || port == 0 {
        None
    } else {
        Some((host, port))
    }
}

// The tunnel that a node is dialled through, if one is given: it stands for host and port.
fn tunnel_in<'a>(
    alloc: Global,
    matches: &ArgMatches<'a>,
) -> Result<Option<(&'a str, u16)>, Refusal> {
    let Some(text) = matches.get_str("tls-through") else {
        return Ok(None);
    };
    match tunnel_of(text) {
        Some(tunnel) => Ok(Some(tunnel)),
        None => {
            let front = "--tls-through takes ADDRESS:PORT, where a tunnel is open: ";
            Err(refuse(with_word(alloc, front, text)))
        }
    }
}

// How often nodes are probed, if they are watched.
fn rhythm_in(watch: Option<u16>, count: Option<u16>) -> Result<Option<Rhythm>, Fault> {
    let rounds = match count {
        Some(count) => u64::from(count),
        None => u64::MAX,
    };
    match watch {
        Some(seconds) => Ok(Some(Rhythm { seconds, rounds })),
        None if count.is_some() => Err(Fault::CountAlone),
        None => Ok(None),
    }
}

// What the parser matched, without the names.
fn choices_in<'a>(
    alloc: Global,
    matches: &ArgMatches<'a>,
    usual_port: u16,
) -> Result<Choices<'a>, Refusal> {
    let cookie = cookie_in(matches)?;
    let flags = flags_in(alloc, matches)?;
    let [mapper_port, port, listen, seconds, watch, count] = numbers_in(alloc, matches)?;
    let address = address_in(alloc, matches)?;
    let tunnel = tunnel_in(alloc, matches)?;
    if tunnel.is_some() && (port.is_some() || address.is_some()) {
        return Err(Refusal::Fault(Fault::TunnelAlone));
    }
    let (address, port) = match tunnel {
        Some((host, port)) => (Some(host), Some(port)),
        None => (address, port),
    };
    Ok(Choices {
        cookie,
        flags,
        mapper_port: mapper_port.unwrap_or(usual_port),
        port,
        address,
        is_tunnelled: tunnel.is_some(),
        seconds: seconds.unwrap_or(CONNECT_SECONDS),
        patience: seconds,
        listen,
        json: matches.get_flag("json"),
        detail: detail_in(matches)?,
        takes_any_file: matches.get_flag("cookie-unsafe"),
        roster: matches.get_str("nodes"),
        all_pairs: matches.get_flag("all-pairs"),
        watch: rhythm_in(watch, count)?,
        metrics: matches.get_str("prometheus"),
        capture: matches.get_str("capture"),
    })
}

impl Wanted<'_> {
    // Whether just one node is dialled.
    fn is_one_node(&self) -> bool {
        matches!(self.targets.as_slice(), [Target::Node(_)]) && self.choices.roster.is_none()
    }

    // What contradicts the rest.
    fn fault(&self) -> Option<Fault>
        ensures { result ≡ None → Fits self.now }
    {
        let choices = &self.choices;
        let has_targets = !self.targets.is_empty() || choices.roster.is_some();
        let is_dial = choices.capture.is_none() && choices.listen.is_none();
        if choices.is_tunnelled && !is_dial {
            return Some(Fault::TunnelAlone);
        }
        if choices.metrics.is_some() && choices.watch.is_none() {
            return Some(Fault::MetricsAlone);
        }
        if choices.capture.is_some() {
            if has_targets || choices.listen.is_some() || choices.watch.is_some() {
                return Some(Fault::CaptureAlone);
            }
        } else if choices.listen.is_some() {
            if has_targets || choices.watch.is_some() || self.name.is_none() {
                return Some(Fault::ListenAlone);
            }
        } else if !has_targets {
            return Some(Fault::NoNode);
        } else if (choices.port.is_some() || choices.address.is_some()) && !self.is_one_node() {
            return Some(Fault::OneNodeAlone);
        }
        None
    }
}

// What the parser matched, unless its parts contradict each other.
fn wanted_in<'a>(
    alloc: Global,
    matches: &ArgMatches<'a>,
    usual_port: u16,
) -> Result<Wanted<'a>, Refusal>
    ensures { IfOk result Fits }
{
    let choices = choices_in(alloc, matches, usual_port)?;
    let name = own_name_in(alloc, matches)?;
    let (mut targets, mut ports) = (Vec::new(alloc), Vec::new(alloc));
    push_targets(alloc, matches, &mut targets, &mut ports)?;
    let wanted = Wanted {
        targets,
        ports,
        name,
        choices,
    };
    match wanted.fault() {
        Some(fault) => Err(Refusal::Fault(fault)),
        None => Ok(wanted),
    }
}

// What is done if the parser matched nothing.
fn instead_of(alloc: Global, error: &Error) -> Instead {
    match error.kind() {
        ErrorKind::DisplayHelp => Instead::Help,
        ErrorKind::DisplayVersion => Instead::Version,
        ErrorKind::OutOfMemory => Instead::Refusal(Refusal::Fault(Fault::NoMemory)),
        _ => Instead::Refusal(refuse(parser_sentence(alloc, PROGRAM, error))),
    }
}

/// What these words ask for. `usual_port` is the port mapper's port if they name none.
pub fn wanted_of<'a>(
    alloc: Global,
    words: &'a [String],
    usual_port: u16,
) -> Result<Wanted<'a>, Instead>
    ensures { IfOk result Fits }
{
    match program(alloc)?.try_get_matches_from(words) {
        Ok(matches) => Ok(wanted_in(alloc, &matches, usual_port)?),
        Err(error) => Err(instead_of(alloc, &error)),
    }
}
