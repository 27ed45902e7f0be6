//! Calls the command of an order.

ghost use Rattle.std.specs.{Prelude.◌≡◌, Prelude.◌≤◌, Prelude.◌⊎◌, Prelude.Option, Prelude.None, Prelude.List, Prelude.ℕ, Io.KnownBytes.Keeps};
ghost use Rattle.distnode.specs.Followed.{PrintsAnswer, Follows, StopsCookieAt, StopsAnswer, StopsRunAt, EndsByPort, Ends};
ghost use Rattle.distnode.specs.{Printed.PrintsCookie, Stopped.EndsByFault, RunPrinted.PrintsRunOf};

use crate::cookie_command::cookie;
use crate::fault::{Fault, report_port};
use crate::names_command::names;
use crate::order_of_words::Order;
use crate::run::run_file;
use crate::system::System;
use dist_program::WordFault;
use dist_run::Machine;
use dist_script_play::enact;
use std::alloc::Global;
use std::io::{Read, Write};

// The command `cookie`, for the file at a path.
#[tactic(auto, using(crate::proofs::Followed::cookie_ended, crate::proofs::Followed::cookie_unopened))]
fn follow_cookie<S: System, W: Write, E: Write>(
    system: &S,
    alloc: Global,
    path: &str,
    challenge: u32,
    out: &mut W,
    err: &mut E,
) -> u8
    ensures status { result ≤ 1 }
    ensures done { result ≡ 0 → (left : Option (List ℕ))
        × PrintsCookie (S.bytes_at system.now path.now) left challenge (W.contents out.old) (W.contents out.new) }
    ensures silent { result ≡ 0 → E.contents err.new ≡ E.contents err.old }
    ensures ended { result ≡ 1 → EndsByFault (StopsCookieAt (S.bytes_at system.now path.now) challenge (W.contents out.old) (W.contents out.new))
        1 (E.contents err.old) (E.contents err.new) }
{
    match system.open_cookie(path) {
        Ok(mut file) => cookie(alloc, &mut file, challenge, out, err),
        Err(_) => Fault::OpenFailed.report_to(err),
    }
}

// Prints what the port mapper at a port knows; escaped if standard output is a terminal.
#[tactic(auto, using(crate::proofs::Followed::names_ended, crate::proofs::Followed::names_unconnected))]
fn print_names<S: System, W: Write, E: Write>(
    system: &S,
    alloc: Global,
    port: u16,
    out: &mut W,
    err: &mut E,
) -> u8
    ensures status { result ≤ 1 }
    ensures done { result ≡ 0 → PrintsAnswer (S.has_terminal system.now) (S.talk_at system.now port) (W.contents out.old) (W.contents out.new) }
    ensures silent { result ≡ 0 → E.contents err.new ≡ E.contents err.old }
    ensures ended { result ≡ 1 → EndsByFault (StopsAnswer (S.has_terminal system.now) (S.talk_at system.now port) (W.contents out.old) (W.contents out.new))
        1 (E.contents err.old) (E.contents err.new) }
{
    match system.connect(port) {
        Ok(mut stream) => names(alloc, &mut stream, system.is_terminal(), out, err),
        Err(_) => Fault::ConnectFailed.report_to(err),
    }
}

// The command `names`. It is refused if the environment names a bad port, even if the command line names another.
fn follow_names<S: System, W: Write, E: Write>(
    system: &S,
    alloc: Global,
    named: &Result<u16, WordFault>,
    port: u16,
    out: &mut W,
    err: &mut E,
) -> u8
    ensures status { result ≤ 2 }
    ensures done { result ≡ 0 → PrintsAnswer (S.has_terminal system.now) (S.talk_at system.now port) (W.contents out.old) (W.contents out.new) }
    ensures silent { result ≡ 0 → E.contents err.new ≡ E.contents err.old }
    ensures ended { result ≡ 1 → EndsByPort named.now 1 (W.contents out.old) (W.contents out.new) (E.contents err.old) (E.contents err.new)
        ⊎ EndsByFault (StopsAnswer (S.has_terminal system.now) (S.talk_at system.now port) (W.contents out.old) (W.contents out.new))
        1 (E.contents err.old) (E.contents err.new) }
    ensures refused { result ≡ 2 → EndsByPort named.now 2 (W.contents out.old) (W.contents out.new) (E.contents err.old) (E.contents err.new) }
{
    match named {
        Ok(_) => print_names(system, alloc, port, out, err),
        Err(error) => report_port(error, err),
    }
}

// The command `run`, for the nodes file at a path.
fn follow_run<S: System, R: Machine, W: Write, E: Write>(
    system: &S,
    host: &R,
    alloc: Global,
    path: &str,
    out: &mut W,
    err: &mut E,
) -> u8
    ensures status { result ≤ 2 }
    ensures done { result ≡ 0 → (left : Option (List ℕ)) × PrintsRunOf (S.bytes_at system.now path.now) left None (W.contents out.old) (W.contents out.new) }
    ensures silent { result ≡ 0 → E.contents err.new ≡ E.contents err.old }
    ensures ended { result ≡ 1 → EndsByFault (StopsRunAt (S.bytes_at system.now path.now) (W.contents out.old) (W.contents out.new))
        1 (E.contents err.old) (E.contents err.new) }
    ensures refused { result ≡ 2 → EndsByFault (StopsRunAt (S.bytes_at system.now path.now) (W.contents out.old) (W.contents out.new))
        2 (E.contents err.old) (E.contents err.new) }
{
    match system.open(path) {
        Ok(mut file) => run_file(host, alloc, &mut file, out, err),
        Err(_) => Fault::OpenFailed.report_to(err),
    }
}

/// Does what an order says, and returns the exit status. `named` is the port of the environment: a bad one is reported by the command
/// that asks a port mapper. `host` is the runtime, for commands that start threads.
#[tactic(auto, using(crate::proofs::Followed::play_ended, crate::proofs::Followed::play_refused))]
pub fn follow<S: System, R: Machine, I: Read, W: Write, E: Write>(
    system: &S,
    host: &R,
    alloc: Global,
    order: Order<'_>,
    named: &Result<u16, WordFault>,
    input: &mut I,
    out: &mut W,
    err: &mut E,
) -> u8
    ensures status { result ≤ 2 }

    // With status 0 the command was done, for what the order names: just what it prints was printed.
    ensures done { result ≡ 0 → Follows (S.bytes_at system.now) (S.talk_at system.now) (S.has_terminal system.now)
        (I.remaining input.old) (I.remaining input.new) order.entry (W.contents out.old) (W.contents out.new) }
    ensures silent { result ≡ 0 → Keeps (E.contents err.old) (E.contents err.new) }

    // With status 1 or 2 it was not done: which fault ended it, whose line was written to `err`, and what was printed before.
    ensures ended { result ≡ 1 → Ends (S.bytes_at system.now) (S.talk_at system.now) (S.has_terminal system.now) named.now
        (I.remaining input.old) (I.remaining input.new) order.entry 1 (W.contents out.old) (W.contents out.new) (E.contents err.old) (E.contents err.new) }
    ensures refused { result ≡ 2 → Ends (S.bytes_at system.now) (S.talk_at system.now) (S.has_terminal system.now) named.now
        (I.remaining input.old) (I.remaining input.new) order.entry 2 (W.contents out.old) (W.contents out.new) (E.contents err.old) (E.contents err.new) }
{
    match order {
        Order::Enact => enact(alloc, input, out, err),
        Order::Cookie { file, challenge } => follow_cookie(
            system, alloc, file, challenge, out, err,
        ),
        Order::Names { port } => follow_names(system, alloc, named, port, out, err),
        Order::Run { file } => follow_run(system, host, alloc, file, out, err),
    }
}
