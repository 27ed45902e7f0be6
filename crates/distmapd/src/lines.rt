//! The lines of the log: what each says of an event.

ghost use Rattle.std.specs.{Prelude.◌≡◌, Prelude.IfOk, Prelude.codes, Prelude.map, String.string_bytes};
ghost use Rattle.distmapd.specs.{Lines.client, Lines.event_line, Lines.left_out_line, Lines.reason, Members.Shown, Members.member_of};

use crate::members::{LineMember, LineValue, line};
use crate::settings::LogForm;
use dist_epmd_clients::ClientEvent;
use std::alloc::{AllocError, Global};
use std::collections::BTreeMap;
use std::net::IpAddr;

/// What the lines of a round have in common.
#[derive(Clone, Copy)]
pub struct Round<'a> {
    /// The second since the start.
    pub second: u64,
    /// The time of day, as text.
    pub time: &'a str,
    /// The addresses of clients, by the numbers of their connections.
    pub addresses: &'a BTreeMap<u64, IpAddr>,
}

/// Why a registration was refused: a node of its name is registered, or not.
pub const TAKEN: &str = "a node of this name is registered";

pub const NOT_TAKEN: &str = "no name that may be registered, or no room";

/// Why a client was not answered: on this host, or on another.
pub const UNSERVED: &str = "it asked for nothing that is served";

pub const UNSERVED_THERE: &str = "from another host it asked for nothing that is served there";

// The port of a node.
fn port_member(port: u16) -> LineMember<'static>
    ensures { member_of result ≡ (codes "port", Shown.number port) }
{
    ("port", LineValue::Number(u64::from(port)))
}

// Why something was refused: a sentence for people, the condition for programs.
fn reason(
    form: LogForm,
    key: &'static str,
    holds: bool,
    if_so: &'static str,
    if_not: &'static str,
) -> LineMember<'static>
    ensures { member_of result ≡ reason form key.now holds if_so.now if_not.now }
{
    match (form, holds) {
        (LogForm::Text, true) => ("why", LineValue::Text(if_so)),
        (LogForm::Text, false) => ("why", LineValue::Text(if_not)),
        (LogForm::Json, _) => (key, LineValue::Bool(holds)),
    }
}

// The members that each event of a client has: its connection and its address.
fn client(round: &Round<'_>, conn: u64) -> [LineMember<'static>; 2]
    ensures { map member_of result ≡ client round.now conn }
{
    let host = round.addresses.get(&conn).copied();
    [
        ("connection", LineValue::Number(conn)),
        ("address", LineValue::Host(host)),
    ]
}

/// The line of an event; empty if the event has none.
pub fn event_line(
    alloc: Global,
    form: LogForm,
    round: &Round<'_>,
    event: &ClientEvent,
) -> Result<String, AllocError>
    ensures { IfOk result (λ text. string_bytes text ≡ event_line form round.now event.now) }
{
    let time = round.time;
    match event {
        ClientEvent::Registered { conn, name, port } => {
            let more = [("name", LineValue::Name(name)), port_member(*port)];
            line(
                alloc,
                form,
                time,
                "registered",
                &client(round, *conn),
                &more,
            )
        }
        ClientEvent::Ended { conn, name } => {
            let more = [("name", LineValue::Name(name))];
            line(alloc, form, time, "ended", &client(round, *conn), &more)
        }
        ClientEvent::Refused {
            conn,
            name,
            is_taken,
        } => {
            let why = reason(form, "taken", *is_taken, TAKEN, NOT_TAKEN);
            let more = [("name", LineValue::Name(name)), why];
            line(alloc, form, time, "refused", &client(round, *conn), &more)
        }
        ClientEvent::Unanswered { conn, is_local } => {
            let why = reason(form, "local", *is_local, UNSERVED, UNSERVED_THERE);
            line(
                alloc,
                form,
                time,
                "unanswered",
                &client(round, *conn),
                &[why],
            )
        }
        ClientEvent::MadeRoom { conn } => {
            line(alloc, form, time, "made_room", &client(round, *conn), &[])
        }
        ClientEvent::NoMemory { conn } => {
            line(alloc, form, time, "no_memory", &client(round, *conn), &[])
        }
        ClientEvent::Late { count } => {
            line(
                alloc,
                form,
                time,
                "late",
                &[("connections", LineValue::Number(*count))],
                &[],
            )
        }
        ClientEvent::LookedUp | ClientEvent::Listed => Ok(String::new(alloc)),
    }
}

/// The line that says how many lines were left out.
pub fn left_out_line(
    alloc: Global,
    form: LogForm,
    round: &Round<'_>,
    count: u64,
) -> Result<String, AllocError>
    ensures { IfOk result (λ text. string_bytes text ≡ left_out_line form round.now count) }
{
    let lines = [("lines", LineValue::Number(count))];
    line(alloc, form, round.time, "left_out", &lines, &[])
}
