//! The texts of the lines about several nodes: the program's own words, and numbers.

use dist_cluster::{LatencySummary, Summary, WordCount};
use std::alloc::{AllocError, Global};
use std::io::Write;

// Appends a line to a text that counts nodes or pairs, and those with each word, as `3: Up 2, WrongCookie 1`.
fn push_counts(
    text: &mut String,
    front: &str,
    count: u64,
    counts: &[WordCount],
) -> Result<(), AllocError> {
    write!(text, "{front}{count}")?;
    let mut before = ": ";
    for it in counts {
        write!(text, "{before}{} {}", it.word, it.count)?;
        before = ", ";
    }
    text.push_str("\n")
}

/// The lines that say how many nodes have which verdict, and how many pairs which word.
pub fn summary_lines(alloc: Global, summary: &Summary) -> Result<String, AllocError> {
    let mut text = String::new(alloc);
    push_counts(&mut text, "   nodes     ", summary.nodes, &summary.verdicts)?;
    push_counts(&mut text, "   pairs     ", summary.pairs, &summary.pairings)?;
    Ok(text)
}

/// How long the answers took in this many rounds, or that there were none.
pub fn times_text(
    alloc: Global,
    rounds: u64,
    summary: Option<LatencySummary>,
) -> Result<String, AllocError> {
    match summary {
        Some(it) => format!(in alloc;
            "{} answers in {rounds} rounds, least {} ms, median {} ms, worst {} ms",
            it.count, it.least, it.median, it.worst
        ),
        None => format!(in alloc; "no answer in {rounds} rounds"),
    }
}
