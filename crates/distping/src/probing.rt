//! Probes one node, and prints its steps.

ghost use Rattle.std.specs.Prelude.{◌≡◌, IfOk, IfSome, option_map, string_bytes};
ghost use Rattle.dist_talk.specs.Described.{view_of};
ghost use Rattle.distping.specs.Halves.{DialKeeps, DialShows, HalfComes, IsKept, ResultComes, flags_kept, kinds_of, with_kind};

use crate::common::Context;
use crate::links::probe;
use crate::reply::NodeResult;
use dist_cluster::{AddressKinds, Half, Target, USUAL};
use dist_names::{Flags, NodeName};
use dist_program::{Addresses, Resolving};
use dist_talk::{HandshakeVerdict, NodeDescription, is_found};
use distping_report::{Dial, LineSink, ProbeOutcome};
use distping_words::{Fault, Wanted, parse_name};
use std::alloc::Global;
use std::net::SocketAddr;

// Our usual name at the node's host, so that both names are long or both short.
fn usual_name(alloc: Global, node: &NodeName) -> Result<NodeName, Fault> {
    let mut text = Vec::from_slice(alloc, USUAL)?;
    text.push(b'@')?;
    text.extend_from_slice(node.host())?;
    parse_name(alloc, &text)
}

// Our name: the given one, or else the usual one.
fn own_name(alloc: Global, wanted: &Wanted<'_>, node: &NodeName) -> Result<NodeName, Fault>
    ensures given { IfSome wanted.now.name (λ name. IfOk result (λ own. own ≡ name)) }
{
    match &wanted.name {
        Some(name) => Ok(name.try_clone(alloc)?),
        None => usual_name(alloc, node),
    }
}

// With the kind of this address.
fn with_kind(address: &SocketAddr, kinds: AddressKinds) -> AddressKinds
    ensures { result ≡ with_kind address.now kinds }
{
    AddressKinds {
        ipv4: address.is_ipv4() || kinds.ipv4,
        ipv6: address.is_ipv6() || kinds.ipv6,
    }
}

// By which kinds of address the node is reached, or may be: of those at which it was found, or which were not tried.
fn kinds_of(addresses: &[SocketAddr], verdicts: &[HandshakeVerdict]) -> AddressKinds
    ensures { result ≡ kinds_of addresses.now verdicts.now }
{
    match (addresses, verdicts) {
        ([], _) => AddressKinds {
            ipv4: false,
            ipv6: false,
        },
        ([address, others @ ..], []) => with_kind(address, kinds_of(others, &[])),
        ([address, others @ ..], [verdict, later @ ..]) => {
            let kinds = kinds_of(others, later);
            if is_found(*verdict) {
                with_kind(address, kinds)
            } else {
                kinds
            }
        }
    }
}

// The flags that are kept of what a node says: none of a node with another name, and not the half of them that an older challenge has.
fn flags_kept(verdict: HandshakeVerdict, said: Option<NodeDescription<'_>>) -> Option<Flags>
    ensures { result ≡ flags_kept verdict (option_map view_of said.entry) }
{
    match (verdict, said) {
        (HandshakeVerdict::OtherName(_), _) | (_, None) => None,
        (_, Some(node)) => match node.creation {
            Some(_) => Some(node.flags),
            None => None,
        },
    }
}

// What is kept of a probe.
fn half_of<'n>(node: &'n NodeName, outcome: &ProbeOutcome) -> Half<'n>
    ensures node { result.node.now ≡ node.now }
    ensures kept { IsKept outcome.now result }
{
    Half {
        node,
        flags: flags_kept(outcome.verdict, outcome.found.peer()),
        kinds: kinds_of(&outcome.addresses, &outcome.verdicts),
        verdict: outcome.verdict,
    }
}

// Probes a node, and returns what is kept of it.
fn dial_silently<'n>(
    dial: &Dial<'_>,
    addresses: Addresses,
    node: &'n NodeName,
) -> Result<Half<'n>, Fault>
    ensures node { IfOk result (λ half. half.node.now ≡ node.now) }
    ensures comes { IfOk result (DialKeeps dial.now) }
{
    let outcome = probe(dial, addresses)?;
    Ok(half_of(node, &outcome))
}

// The same, and prints what belongs before the result.
fn dial_and_print<'n>(
    dial: &Dial<'_>,
    addresses: Addresses,
    node: &'n NodeName,
) -> Result<NodeResult<'n>, Fault>
    ensures node { IfOk result (λ it. it.half.node.now ≡ node.now) }
    ensures shows { IfOk result (λ it. DialShows dial.now.lines.quiet dial.now it.half (string_bytes it.text)) }
{
    let outcome = probe(dial, addresses)?;
    dial.lines.put_before_result(dial, &outcome)?;
    Ok(NodeResult {
        half: half_of(node, &outcome),
        text: dial.lines.node_text(dial, &outcome)?,
    })
}

/// Prints the heading of a node (all have one unless a single node is asked for), probes the node, prints what belongs before the
/// result, and returns the result.
pub fn print_probe<'n, R: Resolving>(
    context: &Context<'_, R>,
    lines: LineSink<'_>,
    node: &'n NodeName,
) -> Result<NodeResult<'n>, Fault>
    ensures node { IfOk result (λ it. it.half.node.now ≡ node.now) }
    ensures comes { IfOk result (λ it. ResultComes context.now.cookie lines.entry.quiet it.half (string_bytes it.text)) }
{
    if !matches!(context.wanted.targets.as_slice(), [Target::Node(_)]) {
        lines.put_heading(node.bytes())?;
    }
    let own = own_name(context.rt.alloc(), context.wanted, node)?;
    let dial = context.make_dial(lines, &own, node);
    dial_and_print(&dial, context.addresses(node), node)
}

/// Probes a node with no step printed, and returns what is kept of it.
pub fn half_of_node<'n, R: Resolving>(
    context: &Context<'_, R>,
    node: &'n NodeName,
) -> Result<Half<'n>, Fault>
    ensures node { IfOk result (λ half. half.node.now ≡ node.now) }
    ensures comes { IfOk result (HalfComes context.now.cookie) }
{
    let own = own_name(context.rt.alloc(), context.wanted, node)?;
    let dial = context.make_dial(LineSink::on_screen(context.rt, true), &own, node);
    dial_silently(&dial, context.addresses(node), node)
}
