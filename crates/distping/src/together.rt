//! Probes several nodes at once, and prints the results in the order of the nodes.
//!
//! The first node of a group is probed in this thread: its steps go to the screen one by one, and its result follows as soon as it is
//! there. Each other node is probed in a thread of its own. Its steps wait on a page until the group is done, since lines of two nodes
//! would mix, and so does its result. A fault has the same effect as if the nodes were probed one after another: what comes before it
//! is printed, and nothing after it. A fault of the first node ends the run once the others are done, and nothing of them is printed.

ghost use Rattle.std.specs.Prelude.{◌≡◌, ◌++◌, ◌∷◌, [], ◌<◌, length, IfOk, OnOk, slice_index_or};
ghost use Rattle.std.specs.Result.{ForOk};
ghost use Rattle.dist_cluster.specs.Statuses.{first_of};
ghost use Rattle.dist_talk.specs.Words.{status_of};
ghost use Rattle.std.specs.List.{All};
ghost use Rattle.distping.specs.{Order.first_status, Order.names_in, Order.names_of, Runs.PrintsResults, Runs.ReplyComes};

use crate::common::Context;
use crate::grouping::split_group;
use crate::probing::print_probe;
use crate::reply::{DialReply, NodeResult};
use dist_cluster::{Half, first_of};
use dist_names::NodeName;
use dist_program::Resolving;
use distping_report::{LineSink, Page, ResultSink};
use distping_words::Fault;
use std::io::Write;
use std::thread::{join_mut, map_indices};

// Probes a node whose lines wait on a page.
fn make_reply<'n, R: Resolving>(context: &Context<'_, R>, node: &'n NodeName) -> DialReply<'n>
    ensures node { result.node.now ≡ node.now }
    ensures comes { ReplyComes context.now.cookie context.now.wanted.now.choices.json result }
{
    let page = Page::new(context.rt.alloc());
    let found = print_probe(context, context.screen().on_page(&page), node);
    DialReply {
        node,
        steps: page.into_text(),
        found,
    }
}

// Probes these nodes at once, each in a thread, and returns the results in their order.
fn probe_others<'n, R: Resolving + Sync>(
    context: &Context<'_, R>,
    others: &'n [NodeName],
) -> Result<Vec<DialReply<'n>>, Fault>
    ensures names { IfOk result (λ replies. names_in replies.items ≡ others.now) }
    ensures come { IfOk result (λ replies. All (ReplyComes context.now.cookie context.now.wanted.now.choices.json) replies.items) }
{
    let replies = map_indices(
        context.resolver,
        context.rt.alloc(),
        others.len(),
        &|place: usize| -> DialReply<'_>
            requires { place < length others.now }
            ensures node { result.node.now ≡ slice_index_or others.entry.now place [] }
            ensures comes { ReplyComes context.entry.now.cookie context.entry.now.wanted.now.choices.json result }
        { make_reply(context, &others[place]) },
    )?;
    Ok(replies)
}

// Prints the lines that a node still has and its result, keeps that, and returns its status.
#[tactic(auto, using(crate::proofs::Firsts::first_status_push))]
fn take_reply<'n, W: Write>(
    lines: LineSink<'_>,
    reply: DialReply<'n>,
    halves: &mut Vec<Half<'n>>,
    out: &mut ResultSink<W>,
) -> Result<u8, Fault>
    ensures names { OnOk result (names_of halves.new.items ≡ names_of halves.old.items ++ reply.entry.node.now ∷ []) }
    ensures half { OnOk result (ForOk reply.entry.found (λ it. halves.new.items ≡ halves.old.items ++ it.half ∷ [])) }
    ensures printed { OnOk result ((c : _) (json : _) (start : _) → PrintsResults c json halves.old.items start out.old
        → ReplyComes c json reply.entry → PrintsResults c json halves.new.items start out.new) }
    ensures status { IfOk result (λ status. ForOk reply.entry.found (λ it. status ≡ status_of it.half.verdict)) }
    ensures first { IfOk result (λ status. first_status halves.new.items ≡ first_of (first_status halves.old.items) status) }
{
    let DialReply { steps, found, .. } = reply;
    if !steps.is_empty() {
        lines.write(&steps)?;
    }
    let NodeResult { half, text } = found?;
    out.print(&text)?;
    halves.push(half)?;
    Ok(half.verdict.status())
}

// Prints and keeps the results of a group, in the order of its nodes, and returns the first status that is not 0.
#[tactic(auto, using(crate::proofs::Firsts::first_of_assoc, crate::proofs::Firsts::first_of_none))]
fn take_replies<'n, W: Write>(
    lines: LineSink<'_>,
    replies: Vec<DialReply<'n>>,
    halves: &mut Vec<Half<'n>>,
    out: &mut ResultSink<W>,
) -> Result<u8, Fault>
    ensures names { OnOk result (names_of halves.new.items ≡ names_of halves.old.items ++ names_in replies.entry.items) }
    ensures printed { OnOk result ((c : _) (json : _) (start : _) → PrintsResults c json halves.old.items start out.old
        → All (ReplyComes c json) replies.entry.items → PrintsResults c json halves.new.items start out.new) }
    ensures first { IfOk result (λ status. first_status halves.new.items ≡ first_of (first_status halves.old.items) status) }
{
    let mut status = 0;
    for reply in replies {
        status = first_of(status, take_reply(lines, reply, halves, out)?);
    }
    Ok(status)
}

// Probes a node whose lines go to the screen, prints its result, keeps that, and returns its status.
fn show_node<'n, R: Resolving, W: Write>(
    context: &Context<'_, R>,
    node: &'n NodeName,
    halves: &mut Vec<Half<'n>>,
    out: &mut ResultSink<W>,
) -> Result<u8, Fault>
    ensures names { OnOk result (names_of halves.new.items ≡ names_of halves.old.items ++ node.now ∷ []) }
    ensures printed { OnOk result ((start : _) → PrintsResults context.now.cookie context.now.wanted.now.choices.json halves.old.items start out.old
        → PrintsResults context.now.cookie context.now.wanted.now.choices.json halves.new.items start out.new) }
    ensures first { IfOk result (λ status. first_status halves.new.items ≡ first_of (first_status halves.old.items) status) }
{
    let lines = context.screen();
    let reply = DialReply {
        node,
        steps: String::new(context.rt.alloc()),
        found: print_probe(context, lines, node),
    };
    take_reply(lines, reply, halves, out)
}

// Probes the nodes of a group at once, prints and keeps their results in their order, and returns the first status that is not 0. The
// result of the first node is printed while the others are still probed.
#[tactic(auto, using(crate::proofs::Firsts::first_of_assoc, crate::proofs::Firsts::first_of_none))]
fn show_group<'n, R: Resolving + Sync, W: Write>(
    context: &Context<'_, R>,
    group: &'n [NodeName],
    halves: &mut Vec<Half<'n>>,
    out: &mut ResultSink<W>,
) -> Result<u8, Fault>
    ensures names { OnOk result (names_of halves.new.items ≡ names_of halves.old.items ++ group.now) }
    ensures printed { OnOk result ((start : _) → PrintsResults context.now.cookie context.now.wanted.now.choices.json halves.old.items start out.old
        → PrintsResults context.now.cookie context.now.wanted.now.choices.json halves.new.items start out.new) }
    ensures first { IfOk result (λ status. first_status halves.new.items ≡ first_of (first_status halves.old.items) status) }
{
    match group {
        [] => Ok(0),
        [node] => show_node(context, node, halves, out),
        [node, others @ ..] => {
            let (replies, status) = join_mut(
                context.resolver,
                &mut || probe_others(context, others),
                &mut || show_node(context, node, halves, out),
            );
            let status = status?;
            Ok(first_of(
                status,
                take_replies(context.screen(), replies?, halves, out)?,
            ))
        }
    }
}

/// Probes all nodes, group by group, prints the results, appends them to `halves` in the order of the nodes, and returns the first
/// status that is not 0.
#[tactic(auto, using(crate::proofs::Firsts::first_of_assoc, crate::proofs::Firsts::first_of_none))]
pub fn collect_halves<'n, R: Resolving + Sync, W: Write>(
    context: &Context<'_, R>,
    nodes: &'n [NodeName],
    halves: &mut Vec<Half<'n>>,
    out: &mut ResultSink<W>,
) -> Result<u8, Fault>
    ensures names { OnOk result (names_of halves.new.items ≡ names_of halves.old.items ++ nodes.now) }
    ensures printed { OnOk result ((start : _) → PrintsResults context.now.cookie context.now.wanted.now.choices.json halves.old.items start out.old
        → PrintsResults context.now.cookie context.now.wanted.now.choices.json halves.new.items start out.new) }
    // If there were no results before, the status is the first of these results' that is not 0.
    ensures first { IfOk result (λ status. first_status halves.new.items ≡ first_of (first_status halves.old.items) status) }
{
    if nodes.is_empty() {
        return Ok(0);
    }
    let (group, others) = split_group(nodes);
    let status = show_group(context, group, halves, out)?;
    Ok(first_of(status, collect_halves(context, others, halves, out)?))
}
