//! What runs of nodes on a faulty system report: the orders that made no dial, with how many peers each node is up, and the result of the
//! audit.

use crate::system::FaultySystem;
use dist_audit::audit;
use dist_run::{Ran, run_plan};
use dist_run_plan::plan_of;
use std::alloc::Global;
use std::fmt::Write;
use std::net::{Net, TcpListener, TcpStream};
use std::random::RandomSource;
use std::sync::Wait;
use std::test::*;
use std::thread::Threads;
use std::time::Clock;

// Node a has one order to dial node b.
const ONE_DIAL: &str = r#"
node = [{ name = "a@127.0.0.1", cookie = "secret", flags = "4" }, { name = "b@127.0.0.1", cookie = "secret", flags = "4" }]
dial = [{ from = "a@127.0.0.1", to = "b@127.0.0.1" }]
"#;

// Two nodes dial each other.
const CROSSING: &str = r#"
node = [{ name = "a@h", cookie = "c", flags = "4" }, { name = "b@h", cookie = "c", flags = "4" }]
dial = [{ from = "a@h", to = "b@h" }, { from = "b@h", to = "a@h" }]
"#;

// Of four nodes, two dial one each.
const TWO_PAIRS: &str = r#"
turns = 2000
node = [
  { name = "a@h", cookie = "c", flags = "4" }, { name = "b@h", cookie = "c", flags = "4" },
  { name = "c@h", cookie = "c", flags = "4" }, { name = "d@h", cookie = "c", flags = "4" },
]
dial = [{ from = "a@h", to = "b@h" }, { from = "c@h", to = "d@h" }]
"#;

// One node dials all others.
const STAR: &str = r#"
node = [
  { name = "a@h", cookie = "c", flags = "4" }, { name = "b@h", cookie = "c", flags = "4" }, { name = "c@h", cookie = "c", flags = "4" },
  { name = "d@h", cookie = "c", flags = "4" }, { name = "e@h", cookie = "c", flags = "4" },
]
dial = [{ from = "a@h", to = "b@h" }, { from = "a@h", to = "c@h" }, { from = "a@h", to = "d@h" }, { from = "a@h", to = "e@h" }]
"#;

// Reports the orders that made no dial.
fn put_faults(text: &mut String, ran: &Ran) -> Option<()> {
    for fault in ran.faults.iter() {
        let (number, word) = (fault.number, fault.refusal.name());
        write!(text, "order {number} {word}, ").ok()?;
    }
    Some(())
}

// Reports with how many peers each node is up.
fn put_ups(text: &mut String, ran: &Ran) -> Option<()> {
    text.push_str("up").ok()?;
    for closed in ran.closed.iter() {
        write!(text, " {}", closed.node.ups()).ok()?;
    }
    Some(())
}

fn report_of(alloc: Global, ran: &Ran) -> Option<String> {
    let audit = match audit(alloc, ran.closed.as_slice()) {
        Ok(_) => "holds",
        Err(error) => error.name(),
    };
    let mut text = String::new(alloc);
    put_faults(&mut text, ran)?;
    put_ups(&mut text, ran)?;
    write!(text, ", audit {audit}").ok()?;
    Some(text)
}

// What the run of a nodes file on a system with this fault reports, or why it was refused. `None`: out of memory, or a bad nodes file.
fn run_on<R>(rt: &R, alloc: Global, file: &str, fault: &str) -> Option<String>
where
    R: Net<Listener = TcpListener, Stream = TcpStream>
        + Threads
        + Wait
        + Clock
        + RandomSource
        + Sync,
{
    let plan = plan_of(alloc, file).ok()?;
    let system = FaultySystem::new(rt, fault);
    match run_plan(&system, alloc, &plan, &system) {
        Ok(ran) => report_of(alloc, &ran),
        Err(error) => error.name().to_string(alloc).ok(),
    }
}

// Whether a report is this text, or one of several that ` or ` divides.
fn is_one_of(report: Option<String>, wanted: &str) -> bool {
    match report {
        Some(report) => wanted.split(" or ").any(|text| text == report.as_str()),
        None => false,
    }
}

// The fault of a system, and what the run of a dial reports.
const FAULTS: &str = "\
random => ReadFailed
listener 0 => ListenFailed
listener 1 => ListenFailed
listener 2 => ListenFailed
connection 0 => ConnectFailed
connection 1 => ConnectFailed
connection 2 => order 0 NoRegistry, up 0 0, audit holds
connection 3 => up 0 0, audit holds
shut 0 => up 0 0, audit Unpaired
shut 1 => up 0 0, audit holds";

#[test]
fn what_is_wrong_is_reported(rt: HostRuntime) {
    for row in FAULTS.lines() {
        let (fault, wanted) = row.split_once(" => ").unwrap_or((row, ""));
        assert!(rt;
            is_one_of(run_on(&rt, rt.alloc(), ONE_DIAL, fault), wanted),
            "{row}"
        );
    }
}

#[test]
fn two_nodes_that_dial_each_other_come_up_once(rt: HostRuntime) {
    assert!(rt;
        is_one_of(
            run_on(&rt, rt.alloc(), CROSSING, "holds"),
            "up 1 1, audit holds"
        )
    );
}

// With just one worker, or one lock for both, there is no second order that could go first.
#[test]
fn gated_workers(rt: HostRuntime) {
    assert!(rt;
        is_one_of(
            run_on(&rt, rt.alloc(), TWO_PAIRS, "overtakes"),
            "up 1 1 1 1, audit holds"
        )
    );
}

// The first node is up with the one whose connection was not cut.
const ONE_OF_FOUR: &str = "\
    up 1 1 0 0 0, audit holds or up 1 0 1 0 0, audit holds or up 1 0 0 1 0, audit holds or up 1 0 0 0 1, audit holds";

#[test]
fn connections_that_are_cut_leave_one_world(rt: HostRuntime) {
    assert!(rt; is_one_of(run_on(&rt, rt.alloc(), STAR, "cuts"), ONE_OF_FOUR));
}
