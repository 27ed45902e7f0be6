//! The result for a node, or for a host that gave no node, as one JSON object.

ghost use Rattle.std.specs.Prelude.{◌≡◌, IfOk, codes, string_bytes};
ghost use Rattle.dist_cluster.specs.Targets.{group_word};
ghost use Rattle.dist_names.specs.Escaped.{escapes_of};
ghost use Rattle.distping_report.specs.Objects.{layout_of, member, no_member, number, shape_of, text};
ghost use Rattle.distping_report.specs.Results.{IsNodeLine};

use crate::asked::Dial;
use crate::found::ProbeOutcome;
use crate::objects::member::{FORM, Member, Value, begin_line, end_line, put_members};
use crate::objects::parts::{
    Judged, lacking_flags, put_peer, put_registration, put_tries, verdict_members,
};
use crate::objects::values::{address_or_null, number_or_null, status_or_null};
use dist_cluster::Group;
use std::alloc::{AllocError, Global};

// The node's name, and the name under which it was dialled.
fn name_members<'x>(node: &'x [u8], name: Value<'x>) -> [Member<'x>; 4]
    ensures { layout_of result ≡ member (codes "type") (text (codes "node")) (member (codes "form") (number 1)
        (member (codes "node") (text (escapes_of node.now)) (member (codes "name") (shape_of name.entry) no_member))) }
{
    [
        ("type", Value::Text("node")),
        ("form", FORM),
        ("node", Value::Name(node)),
        ("name", name),
    ]
}

// What was found out about a node, and the verdict, as one line.
fn node_line<'x>(
    alloc: Global,
    node: &'x [u8],
    name: Value<'x>,
    outcome: &ProbeOutcome,
    judged: Judged<'_>,
) -> Result<String, AllocError>
    ensures { IfOk result (λ line. IsNodeLine node.now judged.entry.verdict (string_bytes line)) }
{
    let mut out = begin_line(alloc)?;
    let found = &outcome.found;
    put_members(alloc, &mut out, &name_members(node, name))?;
    put_members(
        alloc,
        &mut out,
        &[("address", address_or_null(found.address))],
    )?;
    put_registration(alloc, &mut out, &found.registration)?;
    let answer = [
        ("port", number_or_null(found.port)),
        ("status", status_or_null(found.status())),
    ];
    put_members(alloc, &mut out, &answer)?;
    put_peer(alloc, &mut out, found.peer())?;
    let lacking = Value::Names(lacking_flags(judged.verdict, found.peer()));
    put_members(alloc, &mut out, &verdict_members(lacking, judged))?;
    put_tries(alloc, &mut out, outcome)?;
    end_line(out)
}

/// What was found out about a node, and the verdict on it with its sentences, as one line.
pub fn object_of(
    alloc: Global,
    dial: &Dial<'_>,
    outcome: &ProbeOutcome,
    judged: Judged<'_>,
) -> Result<String, AllocError>
    ensures { IfOk result (λ line. IsNodeLine dial.now.node.now judged.entry.verdict (string_bytes line)) }
{
    node_line(
        alloc,
        dial.node.bytes(),
        Value::Name(dial.own.bytes()),
        outcome,
        judged,
    )
}

/// The result for a host that gave no node, with the members of a node, as one line.
pub fn group_object(
    alloc: Global,
    group: &Group,
    outcome: &ProbeOutcome,
) -> Result<String, AllocError>
    ensures { IfOk result (λ line. IsNodeLine (group_word group.now) outcome.now.verdict (string_bytes line)) }
{
    let judged = Judged::of(outcome.verdict);
    node_line(alloc, group.word(), Value::Null, outcome, judged)
}
