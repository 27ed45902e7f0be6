//! What is printed about several nodes, as JSON objects on a line each: what a port mapper has in place of a name, what can be said of
//! a pair, and a summary.

ghost use Rattle.std.specs.Prelude.{◌∷◌, [], IfOk, OnOk, codes, string_bytes};
ghost use Rattle.dist_cluster.specs.Pairs.{pair_status, pair_word};
ghost use Rattle.dist_names.specs.Escaped.{escapes_of};
ghost use Rattle.distping_report.specs.Objects.{PutsNamed, number, text};
ghost use Rattle.distping_report.specs.Results.{Shows};

use crate::left_out::LeftOut;
use crate::objects::member::{
    FORM, Member, Value, begin_line, end_line, object_line, put_members, put_object,
};
use crate::objects::values::small_number;
use dist_cluster::{Group, Pairing, Summary, WordCount};
use dist_names::NodeName;
use json::Writer;
use std::alloc::{AllocError, Global};

/// A text that the port mapper of a host has in place of a node's name, as one line.
pub fn left_out_object<'x>(
    alloc: Global,
    group: &'x Group,
    text: &'x [u8],
) -> Result<String, AllocError> {
    let members = [
        ("type", Value::Text("left_out")),
        ("form", FORM),
        ("host", Value::Name(group.word())),
        ("left_out", Value::Name(text)),
    ];
    object_line(alloc, &members)
}

/// How much more of the answer of a host's port mapper is left out, as one line.
pub fn more_left_out_object(
    alloc: Global,
    group: &Group,
    left_out: LeftOut,
) -> Result<String, AllocError> {
    let members = [
        ("type", Value::Text("more_left_out")),
        ("form", FORM),
        ("host", Value::Name(group.word())),
        ("more_lines", Value::Number(u64::from(left_out.lines))),
        ("more_nodes", Value::Number(u64::from(left_out.nodes))),
        ("cut", Value::Bool(left_out.is_cut)),
    ];
    object_line(alloc, &members)
}

/// What can be said of two nodes, as one line.
pub fn pair_object<'x>(
    alloc: Global,
    first: &'x NodeName,
    second: &'x NodeName,
    pairing: Pairing,
) -> Result<String, AllocError>
    ensures { IfOk result (λ line. Shows
        ((codes "first", text (escapes_of first.now)) ∷ (codes "second", text (escapes_of second.now))
        ∷ (codes "pair", text (pair_word pairing)) ∷ (codes "exit", number (pair_status pairing)) ∷ []) (string_bytes line)) }
{
    let members = [
        ("type", Value::Text("pair")),
        ("form", FORM),
        ("first", Value::Name(first.bytes())),
        ("second", Value::Name(second.bytes())),
        ("pair", Value::Text(pairing.name())),
        ("cause", Value::Text(pairing.cause())),
        ("exit", small_number(u16::from(pairing.status()))),
    ];
    object_line(alloc, &members)
}

// Each word as a member, with how many have it.
fn count_members(alloc: Global, counts: &[WordCount]) -> Result<Vec<Member<'static>>, AllocError> {
    let mut members = Vec::new(alloc);
    for count in counts {
        members.push((count.word, Value::Number(count.count)))?;
    }
    Ok(members)
}

// Writes how many have which word, as a member.
fn put_counts(
    alloc: Global,
    out: &mut Writer,
    name: &str,
    counts: &[WordCount],
) -> Result<(), AllocError>
    ensures { OnOk result (PutsNamed name.now out.old out.new) }
{
    put_object(alloc, out, name, &count_members(alloc, counts)?)
}

/// The summary of all nodes, as one line. `status` is the exit status.
pub fn summary_object(alloc: Global, summary: &Summary, status: u8) -> Result<String, AllocError>
    ensures { IfOk result (λ line. Shows ((codes "type", text (codes "summary")) ∷ (codes "exit", number status) ∷ []) (string_bytes line)) }
{
    let mut out = begin_line(alloc)?;
    let front = [
        ("type", Value::Text("summary")),
        ("form", FORM),
        ("nodes", Value::Number(summary.nodes)),
    ];
    put_members(alloc, &mut out, &front)?;
    put_counts(alloc, &mut out, "verdicts", &summary.verdicts)?;
    put_members(alloc, &mut out, &[("pairs", Value::Number(summary.pairs))])?;
    put_counts(alloc, &mut out, "pairings", &summary.pairings)?;
    put_members(
        alloc,
        &mut out,
        &[("exit", Value::Number(u64::from(status)))],
    )?;
    end_line(out)
}
