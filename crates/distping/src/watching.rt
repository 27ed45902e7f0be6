//! Probes all nodes again and again, several at once, and prints what changes, in their order.

ghost use Rattle.std.specs.Prelude.{◌≡◌, ◌⊎◌, IfOk};
ghost use Rattle.distping.specs.Halves.{HalfComes};

use crate::common::Context;
use crate::grouping::split_group;
use crate::metrics_file::replace_metrics;
use crate::probing::half_of_node;
use dist_cluster::{Latencies, Observation, Watch};
use dist_names::{ByteString, NodeName};
use dist_program::{Resolving, deadline_in, report};
use dist_stream::time_left;
use dist_talk::HandshakeVerdict;
use distping_report::{Answers, LineSink, Seen, metrics_text, now_seconds};
use distping_words::{Fault, Rhythm};
use std::alloc::{AllocError, Global};
use std::thread::{self, map_indices};
use std::time::Instant;

/// The exit status if something changed after the first round.
const CHANGED: u8 = 11;

// What is kept of all nodes from round to round.
#[derive(Drop)]
struct Course<'n> {
    watch: Watch,
    latencies: Vec<Latencies>,
    // What was observed in this round.
    round: Vec<Seen<'n>>,
    // Whether something changed after the first round.
    has_changed: bool,
    // Whether the file of `--prometheus` was not written after the last round.
    is_unwritten: bool,
}

// The text by which verdicts are compared: word and cause.
fn verdict_text(alloc: Global, verdict: HandshakeVerdict) -> Result<ByteString, AllocError> {
    let mut text = Vec::from_slice(alloc, verdict.name().as_bytes())?;
    text.extend_from_slice(b": ")?;
    text.extend_from_slice(verdict.cause().as_bytes())?;
    Ok(ByteString::from_vec(text))
}

// A course for this many nodes, with none probed.
fn new_course<'n>(alloc: Global, nodes: usize) -> Result<Course<'n>, AllocError> {
    let mut latencies = Vec::new(alloc);
    for _ in 0..nodes {
        latencies.push(Latencies::new(alloc))?;
    }
    Ok(Course {
        watch: Watch::new(alloc, nodes)?,
        latencies,
        round: Vec::new(alloc),
        has_changed: false,
        is_unwritten: false,
    })
}

// Probes a node, with no step printed.
fn look_at<'n, R: Resolving>(
    context: &Context<'_, R>,
    node: &'n NodeName,
) -> Result<Seen<'n>, Fault>
    ensures node { IfOk result (λ seen. seen.half.node.now ≡ node.now) }
    ensures comes { IfOk result (λ seen. HalfComes context.now.cookie seen.half) }
{
    let start = Instant::now(context.rt).ok().ok_or(Fault::NoTime)?;
    let half = half_of_node(context, node)?;
    let spent = start.elapsed(context.rt).ok().ok_or(Fault::NoTime)?;
    Ok(Seen {
        half,
        latency: u64::try_from(spent.as_millis()).unwrap_or(u64::MAX),
        at: now_seconds(context.rt)?,
    })
}

impl<'n> Course<'n> {
    // Takes the result of a probe, and prints it if it is a change. Keeps the time that the answer took.
    fn take_in(
        &mut self,
        lines: LineSink<'_>,
        target: usize,
        seen: &Seen<'n>,
    ) -> Result<(), Fault> {
        self.round.push(*seen)?;
        if seen.half.verdict.status() == 0
            && let Some(latencies) = self.latencies.get_mut(target)
        {
            latencies.note(seen.latency)?;
        }
        let change = self.watch.observe(Observation {
            target,
            at: seen.at,
            verdict: verdict_text(lines.alloc, seen.half.verdict)?,
        })?;
        let Some(change) = change else {
            return Ok(());
        };
        self.has_changed = self.has_changed || change.before.is_some();
        lines.put_change(seen, &change)
    }
}

// Probes the nodes of a group at once, each in a thread, and returns the results in their order.
fn look_at_group<'n, R: Resolving + Sync>(
    context: &Context<'_, R>,
    group: &'n [NodeName],
) -> Result<Vec<Result<Seen<'n>, Fault>>, Fault> {
    let all = map_indices(
        context.resolver,
        context.rt.alloc(),
        group.len(),
        &|place| look_at(context, &group[place]),
    )?;
    Ok(all)
}

// Probes these nodes once, group by group, and takes the results in their order. `front` is the place of the first among all nodes.
fn play_round<'n, R: Resolving + Sync>(
    context: &Context<'_, R>,
    front: usize,
    nodes: &'n [NodeName],
    course: &mut Course<'n>,
) -> Result<(), Fault> {
    if nodes.is_empty() {
        return Ok(());
    }
    let (group, others) = split_group(nodes);
    let mut target = front;
    for seen in look_at_group(context, group)? {
        course.take_in(context.screen(), target, &seen?)?;
        target = target.saturating_add(1);
    }
    play_round(context, target, others, course)
}

// Writes what was observed in a round to the file of `--prometheus`, if there is one. If that fails, a line says so, unless it did after
// the round before, and the watch goes on.
fn write_metrics<R: Resolving>(
    context: &Context<'_, R>,
    course: &mut Course<'_>,
) -> Result<(), Fault> {
    let choices = &context.wanted.choices;
    let Some(path) = choices.metrics else {
        return Ok(());
    };
    let rt = context.rt;
    let text = metrics_text(rt.alloc(), &course.round, choices.all_pairs)?;
    let unwritten = replace_metrics(rt, path, text.as_bytes())?;
    if let Some(sentence) = &unwritten
        && !course.is_unwritten
    {
        report(&mut rt.stderr(), "distping", sentence, 1);
    }
    course.is_unwritten = unwritten.is_some();
    Ok(())
}

// Prints the times that each node's answers took.
fn put_all_answers(
    lines: LineSink<'_>,
    nodes: &[NodeName],
    rounds: u64,
    course: &Course<'_>,
) -> Result<(), Fault> {
    for (node, latencies) in nodes.iter().zip(course.latencies.iter()) {
        lines.put_answers(&Answers {
            node,
            rounds,
            summary: latencies.summary()?,
        })?;
    }
    Ok(())
}

// Probes all nodes again and again, prints what changes, and at the end the times that their answers took.
fn play_rounds<'n, R: Resolving + Sync>(
    context: &Context<'_, R>,
    nodes: &'n [NodeName],
    rhythm: Rhythm,
    course: &mut Course<'n>,
) -> Result<(), Fault> {
    let rt = context.rt;
    let mut until = Instant::now(rt).ok().ok_or(Fault::NoTime)?;
    for _ in 0..rhythm.rounds {
        thread::sleep(rt, time_left(rt, until));
        until = deadline_in(rt, rhythm.seconds).ok().ok_or(Fault::NoTime)?;
        play_round(context, 0, nodes, course)?;
        write_metrics(context, course)?;
        course.round.clear();
    }
    put_all_answers(context.screen(), nodes, rhythm.rounds, course)
}

/// Probes all nodes again and again, prints what changes, and at the end the times that their answers took. A round begins
/// `rhythm.seconds` after the one before, or once that one is over. The status is 11 if something changed after the first round.
pub fn watch_all<R: Resolving + Sync>(
    context: &Context<'_, R>,
    nodes: &[NodeName],
    rhythm: Rhythm,
) -> Result<u8, Fault>
    ensures { IfOk result (λ status. (status ≡ 0) ⊎ (status ≡ 11)) }
{
    let mut course = new_course(context.rt.alloc(), nodes.len())?;
    play_rounds(context, nodes, rhythm, &mut course)?;
    Ok(if course.has_changed { CHANGED } else { 0 })
}
