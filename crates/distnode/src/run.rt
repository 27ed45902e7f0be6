//! The command `run`: runs the nodes of a nodes file on this host.

ghost use Rattle.std.specs.Prelude.{◌≡◌, ◌≤◌, ℕ, true, false, List, Option, Some, None, IfOk, IfErr, OnOk, codes};
ghost use Rattle.std.specs.Io.KnownBytes.{Appends};
ghost use Rattle.dist_script.specs.Texts.{PutsFront};
ghost use Rattle.distnode.specs.RunPrinted.{order_line, orders_text, closed_text, refused_line, refusal_text};
ghost use Rattle.distnode.specs.RunPrinted.{strangers_line, fooled_end};
ghost use Rattle.distnode.specs.RunPrinted.{Puts, IsHeld, IsAmong, IsAudited, IsOfRun, PrintsRun};
ghost use Rattle.distnode.specs.RunPrinted.{PrintsRunOf};
ghost use Rattle.dist_audit.specs.Audit.{Reports, ReportsFirst};
ghost use Rattle.dist_script_play.specs.Worlds.{FoolsNobody};
ghost use Rattle.distnode.specs.{Stopped.EndsByFault, RunStopped.IsNoNodesFile, RunStopped.StopsPrinting, RunStopped.StopsRun, RunStopped.StopsRunOf};
ghost use Rattle.dist_run_plan.specs.Plans as plans;

use crate::fault::Fault;
use crate::output::write_text;
use dist_audit::{AuditError, Audited, audit, audit_among_others};
use dist_locked::{Closed, Gate, Open};
use dist_run::{Machine, OrderFault, Ran, run_plan};
use dist_run_plan::{Plan, PlanError, plan_of};
use dist_script::{Piece, ScriptFault, put, put_bytes, read_text};
use dist_script_play::{print, print_agreements, print_fooled, print_nodes};
use dist_world::World;
use std::alloc::Global;
use std::io::{Read, Write};
use std::str;

// The plan in a text, or why there is none: it is not a nodes file, or memory ran out.
fn plan_in(alloc: Global, text: &str) -> Result<Plan, Fault>
    ensures ok { IfOk result (λ plan. plans.plan_of text.now ≡ Some plan) }
    ensures stopped { (out : Option (List ℕ)) → IfErr result (StopsRun text.now out out) }
{
    match plan_of(alloc, text) {
        Ok(plan) => Ok(plan),
        Err(PlanError::Bad) => Err(Fault::BadNodesFile),
        Err(PlanError::NoMemory) => Err(Fault::NoMemory),
    }
}

// Prints the line of an order that made no dial.
fn print_fault<W: Write>(out: &mut W, fault: &OrderFault) -> Result<(), ScriptFault>
    ensures { OnOk result (Appends (W.contents out.old) (W.contents out.new) (order_line fault.now)) }
{
    put(
        out,
        &[
            Piece::Text(b"order "),
            Piece::Number(u64::from(fault.number)),
            Piece::Text(b" "),
            Piece::Text(fault.refusal.name().as_bytes()),
            Piece::Text(b"\n"),
        ],
    )
}

// Prints the orders that made no dial.
#[tactic(auto, using(crate::proofs::Printing::nothing, crate::proofs::Printing::order_more))]
fn print_faults<W: Write>(out: &mut W, faults: &[OrderFault]) -> Result<(), ScriptFault>
    ensures { OnOk result (Appends (W.contents out.old) (W.contents out.new) (orders_text faults.now)) }
{
    for fault in faults {
        print_fault(out, fault)?;
    }
    Ok(())
}

// Prints the nodes of the audit's world, what each pair agrees on, and that the audit holds.
fn print_world<W: Write>(alloc: Global, out: &mut W, world: &World) -> Result<(), ScriptFault>
    ensures { OnOk result (Puts (IsHeld world.now) (W.contents out.old) (W.contents out.new)) }
{
    print_nodes(world, out)?;
    print_agreements(alloc, world, out)?;
    match out.write_all(b"audit holds\n") {
        Ok(()) => Ok(()),
        Err(_) => Err(ScriptFault::WriteFailed),
    }
}

// Prints the nodes as they were closed.
#[tactic(auto, using(crate::proofs::Printing::nothing, crate::proofs::Printing::closed_more))]
fn print_closed<W: Write>(out: &mut W, all: &[Closed]) -> Result<(), ScriptFault>
    ensures { OnOk result (Appends (W.contents out.old) (W.contents out.new) (closed_text all.now)) }
{
    for closed in all {
        print::node(out, closed.node.name(), Some(&closed.node))?;
    }
    Ok(())
}

// Prints why no world has the histories of the closed nodes.
fn print_error<W: Write>(out: &mut W, error: AuditError) -> Result<(), ScriptFault>
    ensures { OnOk result (Appends (W.contents out.old) (W.contents out.new) (refused_line error)) }
{
    put(
        out,
        &[
            Piece::Text(b"audit refused "),
            Piece::Number(u64::from(error.number())),
            Piece::Text(b" "),
            Piece::Text(error.name().as_bytes()),
            Piece::Text(b"\n"),
        ],
    )
}

// Prints the nodes as they were closed, and why no world has their histories.
fn print_refusal<W: Write>(
    out: &mut W,
    all: &[Closed],
    error: AuditError,
) -> Result<(), ScriptFault>
    ensures { OnOk result (Appends (W.contents out.old) (W.contents out.new) (refusal_text error all.now)) }
{
    print_closed(out, all)?;
    print_error(out, error)
}

// Prints in how many connections others took part.
fn print_strangers<W: Write>(out: &mut W, count: usize) -> Result<(), ScriptFault>
    ensures { OnOk result (Appends (W.contents out.old) (W.contents out.new) (strangers_line count)) }
{
    put(
        out,
        &[
            Piece::Text(b"strangers "),
            Piece::Number(count as u64),
            Piece::Text(b"\n"),
        ],
    )
}

// Prints that there is none.
fn print_nobody<W: Write>(out: &mut W, is_fooled: bool) -> Result<(), ScriptFault>
    ensures { OnOk result (Appends (W.contents out.old) (W.contents out.new) (fooled_end is_fooled)) }
{
    if is_fooled {
        return Ok(());
    }
    put_bytes(out, b"fooled nobody\n")
}

// Prints the world, in how many connections others took part, and for which nodes they are taken. Returns whether there is one.
fn print_among<W: Write>(alloc: Global, out: &mut W, found: &Audited) -> Result<bool, ScriptFault>
    ensures text { IfOk result (λ is. Puts (IsAmong found.now.world found.now.strangers is) (W.contents out.old) (W.contents out.new)) }
    ensures nobody { IfOk result (λ is. is ≡ false → FoolsNobody found.now.world) }
{
    print_world(alloc, out, &found.world)?;
    print_strangers(out, found.strangers)?;
    let is_fooled = print_fooled(alloc, &found.world, out)?;
    print_nobody(out, is_fooled)?;
    Ok(is_fooled)
}

// Prints that the audit refused closed nodes. Returns that as a fault.
#[tactic(auto, using(crate::proofs::Printing::says_refused))]
fn print_refused<W: Write>(
    out: &mut W,
    all: &[Closed],
    error: AuditError,
) -> Result<Option<Fault>, ScriptFault>
    requires { Reports error true all.now × ReportsFirst error true all.now }
    ensures { IfOk result (λ fault. Puts (IsAudited fault all.now) (W.contents out.old) (W.contents out.new)) }
{
    match print_refusal(out, all, error) {
        Ok(()) => Ok(Some(Fault::AuditRefused(error))),
        Err(_) => Err(ScriptFault::WriteFailed),
    }
}

// Audits closed nodes among which others took part, and prints the result. Returns what is against them, if anything is.
#[tactic(auto, using(crate::proofs::Printing::says_fooled))]
fn audit_others<W: Write>(
    alloc: Global,
    out: &mut W,
    all: &[Closed],
) -> Result<Option<Fault>, ScriptFault>
    ensures { IfOk result (λ fault. Puts (IsAudited fault all.now) (W.contents out.old) (W.contents out.new)) }
{
    match audit_among_others(alloc, all) {
        Ok(found) => match print_among(alloc, out, &found)? {
            true => Ok(Some(Fault::Fooled)),
            false => Ok(None),
        },
        Err(error) => print_refused(out, all, error),
    }
}

// Audits closed nodes, and prints the result: as if no others took part, and else, unless memory ran out, as others did. Returns what is
// against them, if anything is.
#[tactic(auto, using(crate::proofs::Printing::says_held))]
fn print_audit<W: Write>(
    alloc: Global,
    out: &mut W,
    all: &[Closed],
) -> Result<Option<Fault>, ScriptFault>
    ensures { IfOk result (λ fault. Puts (IsAudited fault all.now) (W.contents out.old) (W.contents out.new)) }
{
    match audit(alloc, all) {
        Ok(world) => {
            print_world(alloc, out, &world)?;
            Ok(None)
        }
        Err(AuditError::NoMemory) => print_refused(out, all, AuditError::NoMemory),
        Err(_) => audit_others(alloc, out, all),
    }
}

// Prints the orders that made no dial, and the audit of the nodes. Returns what is against them, if anything is.
fn print_ran<W: Write>(alloc: Global, out: &mut W, ran: &Ran) -> Result<Option<Fault>, ScriptFault>
    ensures { IfOk result (λ refusal. Puts (IsOfRun refusal ran.now.faults.items ran.now.closed.items) (W.contents out.old) (W.contents out.new)) }
{
    let Ok(()) = print_faults(out, ran.faults.as_slice()) else {
        return Err(ScriptFault::WriteFailed);
    };
    let refusal = print_audit(alloc, out, ran.closed.as_slice())?;
    Ok(refusal)
}

// Prints the result of a run. A refused audit is a fault, once it is printed.
#[tactic(auto, using(crate::proofs::RunStopped::cut_run, crate::proofs::RunStopped::against_run))]
fn put_ran<W: Write>(alloc: Global, ran: &Ran, out: &mut W) -> Result<(), Fault>
    ensures printed { OnOk result (Puts (IsOfRun None ran.now.faults.items ran.now.closed.items) (W.contents out.old) (W.contents out.new)) }
    ensures stopped { IfErr result (StopsPrinting ran.now.faults.items ran.now.closed.items (W.contents out.old) (W.contents out.new)) }
{
    let mut text = Vec::new(alloc);
    let Ok(refusal) = print_ran(alloc, &mut text, ran) else {
        return Err(Fault::NoMemory);
    };
    let Ok(()) = write_text(out, text.as_slice()) else {
        return Err(Fault::WriteFailed);
    };
    match refusal {
        None => Ok(()),
        Some(fault) => Err(fault),
    }
}

// Runs the nodes of a text, audits the result, and prints it. A refused audit is a fault, once it is printed.
#[tactic(auto, using(crate::proofs::Printing::of_text))]
fn perform<R: Machine, G: Gate + Sync, W: Write>(
    rt: &R,
    alloc: Global,
    text: &str,
    gate: &G,
    out: &mut W,
) -> Result<(), Fault>
    ensures printed { OnOk result (PrintsRun text.now None (W.contents out.old) (W.contents out.new)) }
    ensures stopped { IfErr result (StopsRun text.now (W.contents out.old) (W.contents out.new)) }
{
    let plan = plan_in(alloc, text)?;
    let ran = match run_plan(rt, alloc, &plan, gate) {
        Ok(ran) => ran,
        Err(error) => return Err(Fault::RunEnded(error)),
    };
    put_ran(alloc, &ran, out)
}

/// Runs the nodes of a nodes file on this host until all their connections were quiet for as many turns as it names. Prints the orders
/// that made no dial, then the result of the audit. If the audit holds: for each node its line and its table, for each pair that is up
/// what it agrees on, all from the audit's world, and `audit holds`. If it refuses: the tables of the closed nodes and `audit refused`.
/// Returns the exit status: 0 if the audit holds, 2 for a text that is not a nodes file, 1 for a refused audit or another fault. A
/// fault is reported on `err`; nothing was printed then, unless the audit refused or a write failed.
#[tactic(auto, using(crate::proofs::Printing::never_zero))]
pub fn run_nodes<R: Machine, G: Gate + Sync, W: Write, E: Write>(
    rt: &R,
    alloc: Global,
    text: &str,
    gate: &G,
    out: &mut W,
    err: &mut E,
) -> u8
    ensures status { result ≤ 2 }

    // With status 0 the audit holds for the nodes of the text, each closed as it was set up there. Each order of the text made its dial
    // once or has its line. What was printed is the text of the world that the audit found.
    ensures printed { result ≡ 0 → PrintsRun text.now None (W.contents out.old) (W.contents out.new) }
    ensures silent { result ≡ 0 → E.contents err.new ≡ E.contents err.old }

    // With status 1 a fault ended the run, whose line was written to `err`. If the audit refused, the nodes as they were closed were
    // printed, and why; else nothing was, unless the write failed.
    ensures ended { result ≡ 1 → EndsByFault (StopsRun text.now (W.contents out.old) (W.contents out.new)) 1 (E.contents err.old) (E.contents err.new) }

    // Status 2 is only for a text that is not a nodes file. Then nothing is printed, and `err` says so.
    ensures bad { result ≡ 2 → plans.plan_of text.now ≡ None }
    ensures bad_out { result ≡ 2 → W.contents out.new ≡ W.contents out.old }
    ensures bad_line { result ≡ 2 → PutsFront (codes "distnode: bad nodes file\n") (E.contents err.old) (E.contents err.new) }
{
    match perform(rt, alloc, text, gate, out) {
        Ok(()) => 0,
        Err(fault) => fault.report_to(err),
    }
}

/// Reads a nodes file, and runs its nodes. A file above 1,048,576 bytes, or that isn't UTF-8, is a bad one.
#[tactic(auto, using(crate::proofs::Printing::never_zero, crate::proofs::Printing::of_file))]
pub fn run_file<R: Machine, F: Read, W: Write, E: Write>(
    rt: &R,
    alloc: Global,
    file: &mut F,
    out: &mut W,
    err: &mut E,
) -> u8
    ensures status { result ≤ 2 }
    ensures printed { result ≡ 0 → PrintsRunOf (F.remaining file.old) (F.remaining file.new) None (W.contents out.old) (W.contents out.new) }
    ensures silent { result ≡ 0 → E.contents err.new ≡ E.contents err.old }
    ensures ended { result ≡ 1 → EndsByFault (StopsRunOf (F.remaining file.old) (F.remaining file.new) (W.contents out.old) (W.contents out.new))
        1 (E.contents err.old) (E.contents err.new) }
    ensures bad { result ≡ 2 → IsNoNodesFile (F.remaining file.old) (F.remaining file.new) }
    ensures bad_out { result ≡ 2 → W.contents out.new ≡ W.contents out.old }
    ensures bad_line { result ≡ 2 → PutsFront (codes "distnode: bad nodes file\n") (E.contents err.old) (E.contents err.new) }
{
    let bytes = match read_text(alloc, file) {
        Ok(bytes) => bytes,
        Err(fault) => return Fault::from(fault).report_to(err),
    };
    match str::from_utf8(bytes.as_slice()) {
        Ok(text) => run_nodes(rt, alloc, text, &Open, out, err),
        Err(_) => Fault::BadNodesFile.report_to(err),
    }
}
