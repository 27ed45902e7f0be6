//! Parts of objects: what the port mapper knows of a node, what the node sent about itself, the verdict, and what each address gave.

ghost use Rattle.std.specs.Prelude.{◌≡◌, ◌≤◌, ℕ, List, OnOk, codes};
ghost use Rattle.distping_report.specs.Objects.{Layout, Layouts, PutsNamed, PutsObjects, PutsValue, layout_levels, layout_of};
ghost use Rattle.distping_report.specs.Objects.{member, no_member, number, object, object_levels, shape_of, text};
ghost use Rattle.dist_talk.specs.Words.{status_of, verdict_word};

use crate::found::ProbeOutcome;
use crate::objects::member::{Member, Value, put_inner, put_members, put_object};
use crate::objects::values::{answer_or_null, creation_or_null, release_word, small_number};
use dist_epmd::PortInfo;
use dist_flags::{Dflag, Release, missing, release_of};
use dist_names::Flags;
use dist_talk::{HandshakeVerdict, NodeDescription};
use json::Writer;
use std::alloc::{AllocError, Global};
use std::net::SocketAddr;

/// A verdict, and the sentences that go with it.
#[derive(Clone, Copy)]
pub struct Judged<'a> {
    /// The verdict.
    pub verdict: HandshakeVerdict,
    /// What happened, escaped.
    pub cause: &'a str,
    /// What can be done about it.
    pub remedy: &'static str,
}

impl<'a> Judged<'a> {
    /// This verdict.
    pub fn of(verdict: HandshakeVerdict) -> Judged<'a>
        ensures { result.verdict ≡ verdict }
    {
        Judged {
            verdict,
            cause: verdict.cause(),
            remedy: verdict.remedy(),
        }
    }
}

/// The missing flags: those for which a node refuses another, or else those for which newer releases refuse the node.
pub fn lacking_flags(verdict: HandshakeVerdict, peer: Option<NodeDescription<'_>>) -> Flags {
    match (verdict, peer) {
        (HandshakeVerdict::LacksFlags(_, flags), _) => flags,
        (_, Some(peer)) => missing(peer.flags, Release::Otp28.required()),
        (_, None) => Flags(0),
    }
}

/// Writes what the port mapper knows of the node, or null.
pub fn put_registration(
    alloc: Global,
    out: &mut Writer,
    registration: &Option<PortInfo>,
) -> Result<(), AllocError>
    ensures { OnOk result (PutsNamed (codes "epmd") out.old out.new) }
{
    match registration {
        Some(registration) => {
            let members = [
                ("port", small_number(registration.port)),
                ("highest", small_number(registration.highest)),
                ("lowest", small_number(registration.lowest)),
            ];
            put_object(alloc, out, "epmd", &members)
        }
        None => put_members(alloc, out, &[("epmd", Value::Null)]),
    }
}

// What a node says of itself.
fn peer_members<'x>(peer: NodeDescription<'x>) -> [Member<'x>; 6] {
    let flags = peer.flags;
    [
        ("name", Value::Name(peer.name)),
        ("creation", creation_or_null(peer.creation)),
        ("flags", Value::Digits(flags)),
        ("flag_names", Value::Names(flags)),
        ("release", Value::Text(release_word(release_of(flags)))),
        ("hidden", Value::Bool(!flags.has(Dflag::Published.flags()))),
    ]
}

/// Writes what a node says of itself, or null.
pub fn put_peer(
    alloc: Global,
    out: &mut Writer,
    peer: Option<NodeDescription<'_>>,
) -> Result<(), AllocError>
    ensures { OnOk result (PutsNamed (codes "peer") out.old out.new) }
{
    match peer {
        Some(peer) => put_object(alloc, out, "peer", &peer_members(peer)),
        None => put_members(alloc, out, &[("peer", Value::Null)]),
    }
}

/// The verdict, with the flags that are missing.
pub fn verdict_members<'x>(lacking: Value<'x>, judged: Judged<'x>) -> [Member<'x>; 5]
    ensures { layout_of result ≡ member (codes "lacking") (shape_of lacking.entry)
        (member (codes "verdict") (text (verdict_word judged.entry.verdict)) (member (codes "cause") (text judged.entry.cause.now)
        (member (codes "remedy") (text judged.entry.remedy.now) (member (codes "exit") (number (status_of judged.entry.verdict)) no_member)))) }
{
    let verdict = judged.verdict;
    [
        ("lacking", lacking),
        ("verdict", Value::Text(verdict.name())),
        ("cause", Value::Escaped(judged.cause)),
        ("remedy", Value::Text(judged.remedy)),
        ("exit", small_number(u16::from(verdict.status()))),
    ]
}

// Writes what one address gave: the verdict, and how the connect ended if it made no connection.
fn put_try(
    alloc: Global,
    out: &mut Writer,
    address: &SocketAddr,
    verdict: HandshakeVerdict,
) -> Result<(), AllocError>
    ensures { OnOk result ((l : Layout) × (layout_levels l ≤ 1) × PutsValue (object l) out.old out.new) }
{
    let members = [
        ("address", Value::Host(address.ip())),
        ("verdict", Value::Text(verdict.name())),
        ("answer", answer_or_null(verdict)),
    ];
    put_inner(alloc, out, &members)
}

// Writes what was found out at each address: the first verdict is that of the first address.
fn put_each_try(
    alloc: Global,
    out: &mut Writer,
    addresses: &[SocketAddr],
    verdicts: &[HandshakeVerdict],
) -> Result<(), AllocError>
    ensures { OnOk result ((ls : Layouts) × (object_levels ls ≤ 2) × PutsObjects ls out.old out.new) }
{
    match addresses.split_first() {
        None => Ok(()),
        Some((address, others)) => match verdicts.split_first() {
            None => Ok(()),
            Some((verdict, later)) => {
                put_try(alloc, out, address, *verdict)?;
                put_each_try(alloc, out, others, later)
            }
        },
    }
}

/// Writes what each address gave that was tried.
pub fn put_tries(alloc: Global, out: &mut Writer, outcome: &ProbeOutcome) -> Result<(), AllocError>
    ensures { OnOk result (PutsNamed (codes "addresses") out.old out.new) }
{
    out.key("addresses")?;
    out.begin_array()?;
    put_each_try(alloc, out, &outcome.addresses, &outcome.verdicts)?;
    out.end_array()
}
