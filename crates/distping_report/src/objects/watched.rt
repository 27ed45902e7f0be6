//! What is printed about a watched node, as JSON objects on a line each.

ghost use Rattle.std.specs.Prelude.{◌∷◌, [], IfOk, codes, string_bytes};
ghost use Rattle.dist_names.specs.Escaped.{escapes_of};
ghost use Rattle.dist_talk.specs.Words.{verdict_word};
ghost use Rattle.distping_report.specs.{Objects.text, Results.Shows};

use crate::objects::member::{FORM, Value, object_line};
use crate::watched::{Answers, Seen, verdict_word_in};
use dist_cluster::{LatencySummary, VerdictChange};
use std::alloc::{AllocError, Global};

// The word of the verdict before, or null.
fn before_or_null(change: &VerdictChange) -> Value<'_> {
    match &change.before {
        Some(before) => Value::Name(verdict_word_in(before)),
        None => Value::Null,
    }
}

// What `change_object` makes of values that all live as long.
fn object_of_change<'x>(
    alloc: Global,
    time: &'x str,
    seen: &Seen<'x>,
    change: &'x VerdictChange,
) -> Result<String, AllocError>
    ensures { IfOk result (λ line. Shows ((codes "node", text (escapes_of seen.now.half.node.now))
        ∷ (codes "verdict", text (verdict_word seen.now.half.verdict)) ∷ []) (string_bytes line)) }
{
    let members = [
        ("type", Value::Text("change")),
        ("form", FORM),
        ("time", Value::Name(time.as_bytes())),
        ("node", Value::Name(seen.half.node.bytes())),
        ("verdict", Value::Text(seen.half.verdict.name())),
        ("cause", Value::Text(seen.half.verdict.cause())),
        ("before", before_or_null(change)),
        ("latency", Value::Number(seen.latency)),
    ];
    object_line(alloc, &members)
}

/// A verdict on a watched node, at this time, and the one before, as one line.
pub fn change_object(
    alloc: Global,
    time: &str,
    seen: &Seen<'_>,
    change: &VerdictChange,
) -> Result<String, AllocError>
    ensures { IfOk result (λ line. Shows ((codes "node", text (escapes_of seen.now.half.node.now))
        ∷ (codes "verdict", text (verdict_word seen.now.half.verdict)) ∷ []) (string_bytes line)) }
{
    object_of_change(alloc, time, seen, change)
}

// The least, the median and the worst time, or null.
fn time_values(summary: Option<LatencySummary>) -> [Value<'static>; 3] {
    match summary {
        Some(it) => {
            [
                Value::Number(it.least),
                Value::Number(it.median),
                Value::Number(it.worst),
            ]
        }
        None => [Value::Null, Value::Null, Value::Null],
    }
}

/// How long a watched node's answers took, as one line.
pub fn latency_object(alloc: Global, answers: &Answers<'_>) -> Result<String, AllocError> {
    let count = match answers.summary {
        Some(it) => it.count,
        None => 0,
    };
    let times = time_values(answers.summary);
    let members = [
        ("type", Value::Text("latency")),
        ("form", FORM),
        ("node", Value::Name(answers.node.bytes())),
        ("rounds", Value::Number(answers.rounds)),
        ("answers", Value::Number(count)),
        ("least", times[0]),
        ("median", times[1]),
        ("worst", times[2]),
    ];
    object_line(alloc, &members)
}
