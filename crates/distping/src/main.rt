//! The program: dials a live node, and prints each step, the cause of a failure, and what can be done.
//!
//! Other crates find the verdict, dial the node or take a connection, read the command line, and make the lines. This one puts them
//! together: it decides which nodes are dialled, several at once or again and again, and prints what can be said of them.
#![tactic(auto)]

mod common;
mod comparing;
mod gathering;
mod grouping;
mod links;
mod metrics_file;
mod nodes;
mod probing;
mod reply;
mod together;
mod watching;

ghost use Rattle.std.specs.Prelude.{◌≡◌, IfOk, IfSome, List, None, ℕ};
ghost use Rattle.std.specs.Option.{ok_or};
ghost use Rattle.distping.specs.{Coming.EndsWith, Coming.ListenEndsWith, Runs.AreNodes, Runs.RunEndsWith, Runs.why_none};
ghost use Rattle.distping_capture.specs.Captures.{EndsWith as CaptureEndsWith, terms_of};
ghost use Rattle.distping_words.specs.declared.command.CookieSource.TheVariants.{Nowhere};

use common::Context;
use comparing::compare;
use dist_cluster::first_of;
use dist_messages::Side;
use dist_names::NodeName;
use dist_program::{HostError, Resolving, lookup_host, mapper_port, read_words, report};
use dist_secret::Cookie;
use dist_talk::{NoCookie, OwnSide, Terms, Viewpoint};
use distping_capture::read_capture;
use distping_report::{Caller, LineSink, Listed, Listen, ResultSink};
use distping_words::{
    Choices, CookieSource, Fault, Instead, Refusal, Wanted, cookie_of, read_roster, wanted_of,
};
use gathering::gather;
use links::{draw_challenge, setup_of, take_connection};
use metrics_file::check_metrics;
use nodes::Nodes;
use std::io::Write;
use std::net::SocketAddr;
use std::process::ExitCode;
use together::collect_halves;
use watching::watch_all;

/// The help.
const HELP: &str =
    "usage: distping NODE.. [--nodes FILE] [--name NAME] [--cookie FILE | --no-cookie] [--cookie-unsafe] [--flags FLAG,..|HEX]
                [--epmd-port N] [--port N] [--address HOST] [--tls-through P] [--seconds N]
                [--watch SECONDS] [--count N] [--prometheus F] [--all-pairs]
                [--quiet | --verbose] [--json]
       distping --listen PORT --name NAME [--cookie FILE | --no-cookie] [--cookie-unsafe] [--flags FLAG,..|HEX]
                [--address HOST] [--seconds N] [--quiet | --verbose] [--json]
       distping --capture FILE [--cookie FILE] [--cookie-unsafe] [--epmd-port N] [--json]
       distping --help | --version

Dials a live Erlang node at each address of its host until it is found, reports what happens, step by step, and ends with one verdict, its cause and its remedy.
Of several nodes it also reports what can be reported of each two of them: of more than two those pairs that have a fault, and a summary.

  NODE            the node to dial, NAME@HOST, or NAME@HOST:PORT, and the port mapper is not asked; @HOST: each node that the port
                  mapper of that host knows; NAME@dns:SERVICE, @dns:SERVICE: NAME@ADDRESS, @ADDRESS of each address of that name
  --nodes FILE    further nodes, one of these a line, # before a comment; - is standard input
  --name NAME     the own name (distping@ and the host part of NODE)
  --cookie FILE   the file of the cookie ($HOME/.erlang.cookie)
  --no-cookie     stop at the node's challenge: no cookie is tried
  --cookie-unsafe take the cookie's file even where others than its owner may use it
  --flags         what is announced: names of flags, or hexadecimal digits (what OTP 23 to 29 take; hidden)
  --epmd-port N   the port of the port mapper (ERL_EPMD_PORT, else 4369)
  --port N        the node's port: the port mapper is not asked
  --address HOST  the host to connect to, in place of the host part of NODE; with --listen the one to listen at (all of this host)
  --tls-through P the tunnel of TLS to the node, which is open at P, an ADDRESS:PORT: the port mapper is not asked
  --seconds N     the most that the look-up of the host, a connect, a lookup of the node and the talk may take each (8), at all
                  addresses of the host together; with --listen also the wait for a connection (without end)
  --listen PORT   takes one connection as the node NAME would, and reports what the other side says
  --capture FILE  reads a capture of packets (pcap or pcapng; - is standard input), and reports each handshake in it
  --watch SECONDS probes all nodes again every so many seconds, and reports what changes
  --count N       with --watch: ends after so many rounds, and reports how long the answers took
  --prometheus F  with --watch: writes what was observed to the file F after each round, as node_exporter's textfile collector reads it
  --all-pairs     reports of each pair of more than two nodes
  --quiet         the verdict alone
  --verbose       the names of the node's flags, too
  --json          an object of JSON for each node, each pair, each connection taken and each one of a capture, in place of the lines
  -h, --help, -V, --version

Status: 0 up, 1 a fault here, 2 a bad command line, 3 the host's name, 4 the port mapper, 5 the registration,
6 the node's port, 7 what listens there, 8 what the node allows, 9 the node's name, 10 the cookie,
11 a change that --watch saw, 12 there was no cookie to try, or nothing in the capture.
";

/// The version of the program, and of what it speaks.
const VERSION: &str = "distping 0.2.0, distribution handshake of version 6\n\
Hosts are found by the C library; in a static program by /etc/hosts and the name servers of /etc/resolv.conf alone.\n";

fn main(rt: HostRuntime) -> ExitCode {
    ExitCode::from(match perform(&rt, &rt) {
        Ok(status) => status,
        Err(Refusal::Fault(Fault::OutputClosed)) => 0,
        Err(refusal) => report(&mut rt.stderr(), "distping", &refusal, refusal.status()),
    })
}

// Does what the command line asks for. `resolver` is the same runtime, for calls that may wait for a thread.
fn perform<R: Resolving + Sync>(rt: &HostRuntime, resolver: &R) -> Result<u8, Refusal> {
    let words = read_words(rt, "distping")?;
    let mapper_port = mapper_port(rt)?;
    match wanted_of(rt.alloc(), &words, mapper_port) {
        Ok(mut wanted) => follow(rt, resolver, &mut wanted),
        Err(Instead::Help) => print(rt, HELP),
        Err(Instead::Version) => print(rt, VERSION),
        Err(Instead::Refusal(refusal)) => Err(refusal),
    }
}

// Prints the help or the version.
fn print(rt: &HostRuntime, text: &str) -> Result<u8, Refusal> {
    LineSink::on_screen(rt, false).write(text)?;
    Ok(0)
}

// Reads the file of names and that of the cookie, and tries that of `--prometheus`; then reads a capture, listens, or checks nodes.
fn follow<R: Resolving + Sync>(
    rt: &HostRuntime,
    resolver: &R,
    wanted: &mut Wanted<'_>,
) -> Result<u8, Refusal> {
    read_names(rt, wanted)?;
    if let Some(path) = wanted.choices.metrics {
        check_metrics(rt, path)?;
    }
    let cookie = cookie_read(rt, &wanted.choices)?;
    let out = ResultSink::new(rt.stdout());
    let (status, _) = carry_out(rt, resolver, wanted, cookie.as_ref(), out)?;
    Ok(status)
}

// Reads a capture, listens, or checks nodes. The results go to `out`, which is returned too.
fn carry_out<'x, R: Resolving + Sync, W: Write + Drop>(
    rt: &'x HostRuntime,
    resolver: &'x R,
    wanted: &'x Wanted<'x>,
    cookie: Option<&'x Cookie>,
    out: ResultSink<W>,
) -> Result<(u8, ResultSink<W>), Fault>
    ensures capture { IfSome wanted.now.choices.capture (λ path. IfOk result (λ it. (bytes : List ℕ)
        × CaptureEndsWith (terms_of cookie.entry) wanted.now.choices.mapper_port wanted.now.choices.json bytes out it.1 it.0)) }
    ensures listen { wanted.now.choices.capture ≡ None → IfSome wanted.now.choices.listen (λ port. IfSome wanted.now.name (λ name. IfOk result (λ it.
        ListenEndsWith name (ok_or cookie.entry (why_none wanted.now.choices.cookie)) wanted.now.choices out it.1 it.0))) }
    ensures nodes { (names : List (List ℕ)) → wanted.now.choices.capture ≡ None → wanted.now.choices.listen ≡ None → wanted.now.choices.watch ≡ None
        → AreNodes wanted.now.targets.items names → IfOk result (λ it.
        RunEndsWith (ok_or cookie.entry (why_none wanted.now.choices.cookie)) wanted.now.choices.json names 0 out it.1 it.0) }
{
    if let Some(path) = wanted.choices.capture {
        return read_capture(rt, path, &wanted.choices, cookie, out);
    }
    let mut out = out;
    let status = probe_or_listen(rt, resolver, wanted, cookie, &mut out)?;
    Ok((status, out))
}

// Listens, or checks nodes. The results of nodes and of a connection go to `out`.
fn probe_or_listen<'x, R: Resolving + Sync, W: Write>(
    rt: &'x HostRuntime,
    resolver: &'x R,
    wanted: &'x Wanted<'x>,
    cookie: Option<&'x Cookie>,
    out: &mut ResultSink<W>,
) -> Result<u8, Fault>
    ensures listen { IfSome wanted.now.choices.listen (λ port. IfSome wanted.now.name (λ name.
        IfOk result (ListenEndsWith name (ok_or cookie.entry (why_none wanted.now.choices.cookie)) wanted.now.choices out.old out.new))) }
    ensures nodes { (names : List (List ℕ)) → wanted.now.choices.listen ≡ None → wanted.now.choices.watch ≡ None → AreNodes wanted.now.targets.items names
        → IfOk result (RunEndsWith (ok_or cookie.entry (why_none wanted.now.choices.cookie)) wanted.now.choices.json names 0 out.old out.new) }
{
    let context = Context {
        rt,
        resolver,
        listed: &Listed::nothing(rt.alloc()),
        wanted,
        cookie: cookie.ok_or(no_cookie(&wanted.choices)),
    };
    match (wanted.choices.listen, &wanted.name) {
        (Some(port), Some(name)) => listen(&context, port, name, out),
        _ => check_nodes(&context, out),
    }
}

// The cookie that is tried, or compared with the digests of a capture: for those it has to be named.
fn cookie_read(rt: &HostRuntime, choices: &Choices<'_>) -> Result<Option<Cookie>, Refusal>
    // With --no-cookie none is tried.
    ensures none { choices.now.cookie ≡ Nowhere → IfOk result (λ cookie. cookie ≡ None) }
{
    match choices.cookie {
        CookieSource::Home if choices.capture.is_some() => Ok(None),
        _ => cookie_of(rt, choices),
    }
}

// Why there is no cookie, where there is none.
fn no_cookie(choices: &Choices<'_>) -> NoCookie
    ensures { result ≡ why_none choices.now.cookie }
{
    match choices.cookie {
        CookieSource::Nowhere => NoCookie::Asked,
        _ => NoCookie::Missing,
    }
}

// Adds the names in the file of names to those of the command line, if there is such a file.
fn read_names(rt: &HostRuntime, wanted: &mut Wanted<'_>) -> Result<(), Refusal> {
    let Some(path) = wanted.choices.roster else {
        return Ok(());
    };
    read_roster(rt, path, &mut wanted.targets, &mut wanted.ports)?;
    if wanted.targets.is_empty() {
        return Err(Refusal::Fault(Fault::NoNode));
    }
    Ok(())
}

// The address to listen at, if a host is named: its first.
fn place_of<R: Resolving>(context: &Context<'_, R>) -> Result<Option<SocketAddr>, Fault> {
    let choices = &context.wanted.choices;
    let Some(host) = choices.address else {
        return Ok(None);
    };
    match lookup_host(context.resolver, *context.rt, host, choices.limit()) {
        Ok(addresses) => Ok(addresses.first().copied()),
        Err(HostError::NoMemory) => Err(Fault::NoMemory),
        Err(_) => Err(Fault::NoListenAddress),
    }
}

// Takes one connection at this port as the node with this name, prints the result, and returns its status.
fn listen<R: Resolving, W: Write>(
    context: &Context<'_, R>,
    port: u16,
    name: &NodeName,
    out: &mut ResultSink<W>,
) -> Result<u8, Fault>
    ensures { IfOk result (ListenEndsWith name.now context.now.cookie context.now.wanted.now.choices out.old out.new) }
{
    let choices = context.wanted.choices;
    let place = place_of(context)?;
    let fresh = draw_challenge(context.rt)?;
    let setup = setup_of(context.rt, name, choices.flags, context.cookie.ok())?;
    let terms = Terms {
        viewpoint: Viewpoint::Acceptor,
        target: Some(name.bytes()),
        cookie: context.cookie,
    };
    let one = Listen {
        own: OwnSide {
            side: Side::Acceptor,
            setup: &setup,
            terms,
            fresh,
        },
        port,
        place,
        choices,
    };
    print_connection(context.rt, context.screen(), &one, out)
}

// Takes one connection, prints the result, and returns its status.
fn print_connection<W: Write>(
    rt: &HostRuntime,
    lines: LineSink<'_>,
    one: &Listen<'_>,
    out: &mut ResultSink<W>,
) -> Result<u8, Fault>
    ensures { IfOk result (EndsWith one.now lines.entry.quiet out.old out.new) }
{
    let mut caller = Caller::nobody();
    let verdict = take_connection(rt, one, lines, &mut caller)?;
    lines.put_details(verdict)?;
    out.print(&lines.caller_text(one, &caller, verdict)?)?;
    Ok(verdict.status())
}

// Finds the nodes, and watches them or probes each once.
fn check_nodes<R: Resolving + Sync, W: Write>(
    context: &Context<'_, R>,
    out: &mut ResultSink<W>,
) -> Result<u8, Fault>
    ensures once { (names : List (List ℕ)) → context.now.wanted.now.choices.watch ≡ None → AreNodes context.now.wanted.now.targets.items names
        → IfOk result (RunEndsWith context.now.cookie context.now.wanted.now.choices.json names 0 out.old out.new) }
{
    let mut nodes = Nodes::new(context.rt.alloc());
    let status = gather(context, &mut nodes)?;
    check_all(context, &nodes.names, status, out)
}

// Probes each of these nodes once, prints what can be said of each pair, and returns the exit status. `status` is that of the hosts that
// were asked for nodes.
#[tactic(auto, using(crate::proofs::Firsts::first_of_assoc))]
fn probe_all<R: Resolving + Sync, W: Write>(
    context: &Context<'_, R>,
    names: &[NodeName],
    status: u8,
    out: &mut ResultSink<W>,
) -> Result<u8, Fault>
    ensures { IfOk result (RunEndsWith context.now.cookie context.now.wanted.now.choices.json names.now status out.old out.new) }
{
    let mut halves = Vec::new(context.rt.alloc());
    let status = first_of(status, collect_halves(context, names, &mut halves, out)?);
    compare(
        context.screen(),
        context.wanted.choices.all_pairs,
        &halves,
        status,
    )
}

// Watches these nodes, or probes each once and prints what can be said of each pair. `status` is that of the hosts that were asked for
// nodes.
fn check_all<R: Resolving + Sync, W: Write>(
    context: &Context<'_, R>,
    names: &[NodeName],
    status: u8,
    out: &mut ResultSink<W>,
) -> Result<u8, Fault>
    ensures once { context.now.wanted.now.choices.watch ≡ None
        → IfOk result (RunEndsWith context.now.cookie context.now.wanted.now.choices.json names.now status out.old out.new) }
{
    let listed = &Listed::new(context.rt.alloc(), names)?;
    let context = &Context { listed, ..*context };
    let choices = &context.wanted.choices;
    if let Some(rhythm) = choices.watch
        && !names.is_empty()
    {
        return watch_all(context, names, rhythm);
    }
    probe_all(context, names, status, out)
}
