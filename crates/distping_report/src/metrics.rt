//! What was observed of watched nodes, in the text format of Prometheus, as the textfile collector of its node_exporter reads it.

use crate::watched::Seen;
use dist_cluster::pairing_of;
use std::alloc::{AllocError, Global};
use std::io::Write;

// What is observed of each node, each a gauge.
#[derive(Clone, Copy)]
enum Metric {
    Up,
    Verdict,
    Seconds,
    Time,
}

const ALL: [Metric; 4] = [Metric::Up, Metric::Verdict, Metric::Seconds, Metric::Time];

// What stands before the metric of pairs, a gauge too.
const PAIR_HEAD: &str =
    "# HELP distping_pair_fits Whether nothing is known against the pair of nodes, by the word of the pair.\n# TYPE distping_pair_fits gauge\n";

impl Metric {
    fn name(self) -> &'static str {
        match self {
            Metric::Up => "up",
            Metric::Verdict => "verdict",
            Metric::Seconds => "probe_seconds",
            Metric::Time => "probe_timestamp_seconds",
        }
    }

    fn help(self) -> &'static str {
        match self {
            Metric::Up => "Whether the exit status of the verdict on the node is 0.",
            Metric::Verdict => "The verdict on the node, by its word.",
            Metric::Seconds => "How long the probe took.",
            Metric::Time => "When the probe was done.",
        }
    }
}

// Appends a node's name as the value of a label: a double quote and a backslash have a backslash before them.
fn push_label(text: &mut String, name: &[u8]) -> Result<(), AllocError> {
    for byte in name {
        if *byte == b'"' || *byte == b'\\' {
            text.push('\\')?;
        }
        text.push(char::from(*byte))?;
    }
    Ok(())
}

// Appends what stands behind a node's name.
fn push_value(text: &mut String, metric: Metric, seen: &Seen<'_>) -> Result<(), AllocError> {
    let verdict = seen.half.verdict;
    match metric {
        Metric::Up => {
            let up = if verdict.status() == 0 { 1u32 } else { 0 };
            write!(text, "\"}} {up}\n")
        }
        Metric::Verdict => write!(text, "\",verdict=\"{}\"}} 1\n", verdict.name()),
        Metric::Seconds => {
            let (seconds, rest) = (seen.latency / 1000, seen.latency % 1000);
            write!(text, "\"}} {seconds}.{rest:03}\n")
        }
        Metric::Time => write!(text, "\"}} {}\n", seen.at),
    }
}

// Appends a metric of these nodes.
fn push_metric(text: &mut String, metric: Metric, all: &[Seen<'_>]) -> Result<(), AllocError> {
    let (name, help) = (metric.name(), metric.help());
    write!(
        text,
        "# HELP distping_{name} {help}\n# TYPE distping_{name} gauge\n"
    )?;
    for seen in all {
        write!(text, "distping_{name}{{node=\"")?;
        push_label(text, seen.half.node.bytes())?;
        push_value(text, metric, seen)?;
    }
    Ok(())
}

// Appends what can be said of two nodes, if `shows_all` or something is wrong with the pair.
fn push_pair(
    text: &mut String,
    first: &Seen<'_>,
    second: &Seen<'_>,
    shows_all: bool,
) -> Result<(), AllocError> {
    let pairing = pairing_of(&first.half, &second.half);
    if !shows_all && !pairing.is_bad() {
        return Ok(());
    }
    text.push_str("distping_pair_fits{first=\"")?;
    push_label(text, first.half.node.bytes())?;
    text.push_str("\",second=\"")?;
    push_label(text, second.half.node.bytes())?;
    let fits = if pairing.is_bad() { 0u32 } else { 1 };
    write!(text, "\",pair=\"{}\"}} {fits}\n", pairing.name())
}

// Appends the metric of the pairs of these nodes.
fn push_pairs(text: &mut String, all: &[Seen<'_>], shows_all: bool) -> Result<(), AllocError> {
    text.push_str(PAIR_HEAD)?;
    for at in 0..all.len() {
        for second in &all[at + 1..] {
            push_pair(text, &all[at], second, shows_all)?;
        }
    }
    Ok(())
}

/// The metrics of these nodes: whether a node's verdict has the status 0, the word of the verdict, how long the probe took, and when it was
/// done, in seconds since 1970; and of each pair whether it fits, and its word. Of more than two nodes only bad pairs have a line,
/// unless all are asked for.
pub fn metrics_text(
    alloc: Global,
    all: &[Seen<'_>],
    all_pairs: bool,
) -> Result<String, AllocError> {
    let mut text = String::new(alloc);
    for metric in ALL {
        push_metric(&mut text, metric, all)?;
    }
    if all.len() > 1 {
        push_pairs(&mut text, all, all_pairs || all.len() == 2)?;
    }
    Ok(text)
}
