//! The program: plays a conformance suite against a live Erlang node, a port mapper, or both, and reports where they deviate from the
//! distribution protocol.
//!
//! Other crates read the rows, make what is said, and judge what comes. This one finds the node, connects, writes and listens, plays
//! several talks at once, and prints.
#![tactic(auto)]

ghost use Rattle.std.specs.Prelude.{◌≡◌, false, IfOk, None, string_bytes};
ghost use Rattle.distcheck.specs.{Played.AreConfirmed, Reports.EndsByOutcome, Reports.IsReported, Rows.conform};

mod calls;
mod command;
mod explaining;
mod fault;
mod lane;
mod left_out;
mod objects;
mod output;
mod playing;
mod progress;
mod queue;
mod reaching;
mod report;
mod results;
mod running;
mod seen;
mod standing;
mod suite;
mod talk_link;
mod talk_stream;
mod transcript;
mod tries;
mod waiting;
mod wanted;

use command::{CheckOrder, CheckTask, task_of};
use dist_conformance::SuiteNames;
use dist_names::{escape, host_part};
use dist_program::{Resolving, find_cookie, mapper_port, read_words, report};
use dist_secret::Cookie;
use explaining::{explanation_of, list_of};
use fault::Fault;
use objects::objects_of;
use output::print;
use playing::Setting;
use reaching::{find_call, find_node, find_place};
use report::report_of;
use results::{PlayedRow, exit_of, gone_in, rows_of};
use running::{PlayedSuite, run_talks};
use std::alloc::{AllocError, Global};
use std::fmt::Write as _;
use std::io::Write;
use std::process::ExitCode;
use suite::{SuiteFile, read_suite};
use wanted::wanted_talks;

/// The help.
const HELP: &str =
    "usage: distcheck NODE [--cookie FILE] [--cookie-unsafe] [--epmd-port N] [--port N] [--tls-through HOST:PORT]
                 [--mapper HOST:PORT] [--make-it-dial HOST:PORT] [--start HOST:PORT] [--guide N] [--quick] [--harsh] [--strict]
                 [--serial] [--only ID,..] [--tag WORD] [--rows FOLDER] [--json]
       distcheck --mapper HOST:PORT [the same]
       distcheck --list | --explain ID [--rows FOLDER]
       distcheck --help | --version

Plays a conformance suite against a live Erlang node, a port mapper, or both: dials it about three hundred times, says what the distribution
protocol allows and what it forbids, and reports each row whose answer is not what the protocol wants.

  NODE                     the node to check, NAME@HOST
  --cookie FILE            the file of the cookie ($HOME/.erlang.cookie)
  --cookie-file FILE       the same
  --cookie-unsafe          take a cookie's file that others than its owner can read
  --epmd-port N            the port of the node's port mapper (ERL_EPMD_PORT, else 4369)
  --port N                 the node's port: the port mapper is not asked
  --tls-through HOST:PORT  the tunnel of TLS to the node, which is open there for many connections: the port mapper is not asked
  --mapper HOST:PORT       the port mapper to check; names are registered there, and garbage is sent
  --make-it-dial HOST:PORT who makes the node dial; rows of its dials are played too, under names that are registered at its port mapper
  --start HOST:PORT        who starts the node, with a port mapper that is ours; rows of what it says there are played too
  --guide N                the guide of this release of OTP counts: note only what later ones demand
  --quick                  leave out slow rows
  --harsh                  play rows too that can end a fragile node
  --strict                 every level counts, and so does what is loose
  --serial                 play one talk at a time, slow ones too
  --only ID,..             play these rows alone: their ids, those of talks, or numbers of sections
  --tag WORD               a word in the names that this run gives itself, for two runs at once
  --rows FOLDER            the folder of the rows (share/distcheck beside the program's)
  --json                   a JSON object for each talk, and one for all, in place of the lines
  --list                   print the rows
  --explain ID             print all that is known of a row
  --help, --version

Status: 0 no must deviates, 1 one does, 2 a bad command line, cookie or row, 3 the node or port mapper is not reached, or is gone, 4 a fault
here.
";

/// The version of the program, and of what it speaks.
const VERSION: &str = "distcheck 0.2.0, distribution handshake of version 6\n";

// What stands for the node in rows where none is checked.
const NOBODY: &str = "?@127.0.0.1";

fn main(rt: HostRuntime) -> ExitCode {
    ExitCode::from(match perform(&rt, &rt) {
        Ok(status) => status,
        Err(fault) => report(&mut rt.stderr(), "distcheck", &fault, fault.status()),
    })
}

// Does what the command line asks for. `resolver` is the same runtime, for calls that may wait for a thread.
fn perform<R: Resolving + Sync>(rt: &HostRuntime, resolver: &R) -> Result<u8, Fault> {
    let words = read_words(rt, "distcheck")?;
    let mapper_port = mapper_port(rt)?;
    let mut out = rt.stdout();
    match task_of(rt.alloc(), &words, mapper_port)? {
        CheckTask::Print(text) => {
            print(&mut out, text)?;
            Ok(0)
        }
        CheckTask::Check(order) => follow(rt, resolver, &order, &mut out),
    }
}

// Reads the rows, and prints some of them, or checks a node, a port mapper, or both.
fn follow<R: Resolving + Sync, W: Write>(
    rt: &HostRuntime,
    resolver: &R,
    order: &CheckOrder<'_>,
    out: &mut W,
) -> Result<u8, Fault>
    ensures { order.now.list ≡ false → order.now.explain ≡ None
        → IfOk result (IsReported order.now.strict order.now.json (W.contents out.old) (W.contents out.new)) }
{
    let alloc = rt.alloc();
    let (_, port) = order.mapper.unwrap_or(("", 0));
    let port = format!(in alloc; "{port}")?;
    let node = order.node.unwrap_or(NOBODY).as_bytes();
    let names = SuiteNames {
        node,
        host: host_part(node),
        tag: order.tag.as_bytes(),
        mapper: port.as_bytes(),
    };
    let suite = read_suite(rt, order, &names)?;
    let text = if let Some(id) = order.explain {
        explanation_of(alloc, &suite, id)?
    } else if order.list {
        list_of(alloc, &suite)?
    } else {
        return check(rt, resolver, order, &suite, out);
    };
    print(out, &text)?;
    Ok(0)
}

// The cookie; where no node is checked, none is used.
fn cookie_for(rt: &HostRuntime, order: &CheckOrder<'_>) -> Result<Cookie, Fault> {
    if order.node.is_some() {
        return Ok(find_cookie(rt, order.cookie_file, order.is_unsafe)?);
    }
    Cookie::from_bytes(rt.alloc(), b"none").or(Err(Fault::NoMemory))
}

// Checks a node, a port mapper, or both, and prints what became of it. Returns the exit status.
fn check<R: Resolving + Sync, W: Write>(
    rt: &HostRuntime,
    resolver: &R,
    order: &CheckOrder<'_>,
    suite: &[SuiteFile],
    out: &mut W,
) -> Result<u8, Fault>
    ensures { IfOk result (IsReported order.now.strict order.now.json (W.contents out.old) (W.contents out.new)) }
{
    let cookie = cookie_for(rt, order)?;
    let node = find_node(rt, resolver, order)?;
    let no_start = "nobody starts the node (bin/make_it_dial)";
    let setting = Setting {
        rt,
        node,
        is_tunnelled: order.tunnel.is_some(),
        mapper: find_place(rt, resolver, order.mapper, "the port mapper")?,
        call: find_call(rt, resolver, order, node)?,
        start: find_place(rt, resolver, order.start, no_start)?,
        cookie: &cookie,
    };
    let wanted = wanted_talks(suite, order, &setting)?;
    if wanted.talks.is_empty() {
        return Err(Fault::NoRow);
    }
    let heading = heading_of(&setting, order, wanted.talks.len())?;
    print(out, &heading)?;
    let played = run_talks(resolver, &setting, &wanted, order.serial)?;
    put_report(rt, order, &played, out)
}

// How many talks are played with whom; nothing where objects are printed.
fn heading_of(
    setting: &Setting<'_>,
    order: &CheckOrder<'_>,
    talks: usize,
) -> Result<String, AllocError> {
    let mut text = String::new(setting.rt.alloc());
    if order.json {
        return Ok(text);
    }
    write!(text, "distcheck 0.2.0: {talks} talks")?;
    if let Some(place) = &setting.node {
        let over = if setting.is_tunnelled {
            " over TLS"
        } else {
            ""
        };
        write!(text, "; node{over} at {place}")?;
    }
    if let Some(place) = &setting.mapper {
        write!(text, "; port mapper at {place}")?;
    }
    if order.serial {
        text.push_str("; one talk at a time")?;
    }
    text.push_str("\n")?;
    Ok(text)
}

// What became of all talks, in lines or as objects.
fn result_text(
    alloc: Global,
    order: &CheckOrder<'_>,
    suite: &PlayedSuite<'_>,
    rows: &[PlayedRow<'_>],
    exit: u8,
) -> Result<String, AllocError>
    ensures { order.now.json ≡ false → IfOk result (λ text. EndsByOutcome exit (conform suite.now.rows rows.now) (string_bytes text)) }
{
    if order.json {
        objects_of(alloc, suite, rows, exit)
    } else {
        report_of(alloc, order, suite, rows, exit)
    }
}

// Prints what became of all talks, and returns the exit status. Where nobody listens any more, that is a fault.
fn put_report<'a, W: Write>(
    rt: &HostRuntime,
    order: &CheckOrder<'_>,
    suite: &'a PlayedSuite<'a>,
    out: &mut W,
) -> Result<u8, Fault>
    ensures { AreConfirmed suite.now.talks.items
        → IfOk result (IsReported order.now.strict order.now.json (W.contents out.old) (W.contents out.new)) }
{
    let alloc = rt.alloc();
    let gone = gone_in(&suite.talks);
    let rows = rows_of(alloc, &suite.talks)?;
    let exit = exit_of(&suite.talks, order.strict);
    let text = result_text(alloc, order, suite, &rows, exit)?;
    print(out, &text)?;
    match gone {
        Some(id) => Err(Fault::Gone(escape(alloc, id)?)),
        None => Ok(exit),
    }
}
