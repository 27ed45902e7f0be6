//! The lines of a script for its one node.

ghost use Rattle.std.specs.Prelude.{drop};
ghost use Rattle.dist_script.specs.Fields.{Reads, ReadsUpTo, first_in, meaning_in};
ghost use Rattle.dist_script.specs.Events.{event_kinds, event_in, line_in};

use crate::fields::{
    bytes_word, end_word, line_end, link_word, meaning_word, name_word, number_word, opening_word,
    why_word,
};
use crate::script::ScriptLine;
use crate::words::{LineFault, Words};
use dist_core::Event;
use std::alloc::Global;

// What a line gives the node.
#[derive(Clone, Copy)]
enum EventWord {
    Incoming,
    Dial,
    Opened,
    Bytes,
    Lost,
    Tick,
}

// The first word of each kind of line.
const KINDS: [(&str, EventWord); 6] = [
    ("bytes", EventWord::Bytes),
    ("tick", EventWord::Tick),
    ("incoming", EventWord::Incoming),
    ("lost", EventWord::Lost),
    ("dial", EventWord::Dial),
    ("opened", EventWord::Opened),
];

// What is given, in the words behind the first.
fn line_behind(
    alloc: Global,
    kind: EventWord,
    words: &mut Words<'_>,
) -> Result<ScriptLine, LineFault>
    ensures { ReadsUpTo result words.new (event_in kind words.old) }
{
    Ok(ScriptLine::Event(match kind {
        EventWord::Bytes => return Ok(ScriptLine::Bytes {
            end_: end_word(words)?,
            bytes: bytes_word(alloc, words)?,
            fresh: number_word(words)?,
        }),
        EventWord::Dial => Event::Dial {
            peer: name_word(alloc, words)?,
            opening: opening_word(words)?,
        },
        EventWord::Incoming => Event::Incoming {
            link: link_word(words)?,
        },
        EventWord::Opened => Event::Opened {
            end_: end_word(words)?,
            link: link_word(words)?,
        },
        EventWord::Lost => Event::Lost {
            end_: end_word(words)?,
            why: why_word(words)?,
        },
        EventWord::Tick => Event::Tick {
            end_: end_word(words)?,
        },
    }))
}

/// What a line gives the node.
#[tactic(auto, using(crate::proofs::Reading::not_done))]
pub fn line_of(alloc: Global, words: &mut Words<'_>) -> Result<ScriptLine, LineFault>
    ensures { Reads result (line_in words.old) }
{
    let kind = meaning_word(&KINDS, words)?;
    let reported = line_behind(alloc, kind, words)?;
    line_end(words)?;
    Ok(reported)
}
