//! The lines of a script that say what happens in a world.

ghost use Rattle.std.specs.Prelude.{drop};
ghost use Rattle.dist_script.specs.Fields.{Reads, ReadsUpTo, first_in, meaning_in};
ghost use Rattle.dist_script.specs.Happenings.{happening_kinds, happening_in, happening_line};

use crate::fields::{
    bytes_word, count_word, creation_word, end_word, line_end, meaning_word, name_word,
    number_word, opening_word, why_word,
};
use crate::node_line::{cookie_word, setup_of};
use crate::words::{LineFault, Words};
use dist_core::{Change, Event};
use dist_world_model::Happening;
use std::alloc::Global;

#[derive(Clone, Copy)]
enum HappeningWord {
    Begin,
    BeginAs,
    Halt,
    Dial,
    Reach,
    Opened,
    Accept,
    Deliver,
    Take,
    Lose,
    Tick,
    Cookie,
    NoCookie,
    UsualCookie,
    OutsideIncoming,
    OutsideOpened,
    OutsideFrame,
}

// A link that is no connection of a world.
const OUTSIDE_LINK: u64 = 281_474_976_710_656;

// The first word of each kind of line.
const KINDS: [(&str, HappeningWord); 17] = [
    ("take", HappeningWord::Take),
    ("deliver", HappeningWord::Deliver),
    ("tick", HappeningWord::Tick),
    ("lose", HappeningWord::Lose),
    ("dial", HappeningWord::Dial),
    ("reach", HappeningWord::Reach),
    ("opened", HappeningWord::Opened),
    ("accept", HappeningWord::Accept),
    ("begin", HappeningWord::Begin),
    ("halt", HappeningWord::Halt),
    ("begin_as", HappeningWord::BeginAs),
    ("cookie", HappeningWord::Cookie),
    ("no_cookie", HappeningWord::NoCookie),
    ("usual_cookie", HappeningWord::UsualCookie),
    ("outside_frame", HappeningWord::OutsideFrame),
    ("outside_incoming", HappeningWord::OutsideIncoming),
    ("outside_opened", HappeningWord::OutsideOpened),
];

// What happens, in the words behind the first. The first of them is the node, or the connection that is accepted.
fn happening_behind(
    alloc: Global,
    kind: HappeningWord,
    words: &mut Words<'_>,
) -> Result<Happening, LineFault>
    ensures { ReadsUpTo result words.new (happening_in kind words.old) }
{
    let node = count_word(words)?;
    Ok(match kind {
        HappeningWord::Begin => Happening::Begin {
            node,
            creation: creation_word(words)?,
        },
        HappeningWord::BeginAs => Happening::BeginAs {
            node,
            setup: setup_of(alloc, words)?,
        },
        HappeningWord::Halt => Happening::Halt { node },
        HappeningWord::Dial => Happening::Dial {
            node,
            peer: name_word(alloc, words)?,
            opening: opening_word(words)?,
        },
        HappeningWord::Reach => Happening::Reach {
            node,
            end_: end_word(words)?,
            target: count_word(words)?,
        },
        HappeningWord::Opened => Happening::Opened {
            node,
            end_: end_word(words)?,
        },
        HappeningWord::Accept => Happening::Accept { conn: node },
        HappeningWord::Deliver => Happening::Deliver {
            node,
            end_: end_word(words)?,
            bytes: count_word(words)?,
        },
        HappeningWord::Take => Happening::Take {
            node,
            end_: end_word(words)?,
            fresh: number_word(words)?,
        },
        HappeningWord::Lose => Happening::Lose {
            node,
            end_: end_word(words)?,
            why: why_word(words)?,
        },
        HappeningWord::Tick => Happening::Tick {
            node,
            end_: end_word(words)?,
        },
        HappeningWord::Cookie => Happening::Reset {
            node,
            change: Change::Cookie {
                peer: name_word(alloc, words)?,
                cookie: Some(cookie_word(alloc, words)?),
            },
        },
        HappeningWord::NoCookie => Happening::Reset {
            node,
            change: Change::Cookie {
                peer: name_word(alloc, words)?,
                cookie: None,
            },
        },
        HappeningWord::UsualCookie => Happening::Reset {
            node,
            change: Change::UsualCookie {
                cookie: cookie_word(alloc, words)?,
            },
        },
        HappeningWord::OutsideIncoming => Happening::Outside {
            node,
            event: Event::Incoming { link: OUTSIDE_LINK },
            fresh: 0,
        },
        HappeningWord::OutsideOpened => Happening::Outside {
            node,
            event: Event::Opened {
                end_: end_word(words)?,
                link: OUTSIDE_LINK,
            },
            fresh: 0,
        },
        HappeningWord::OutsideFrame => Happening::Outside {
            node,
            event: Event::Frame {
                end_: end_word(words)?,
                body: bytes_word(alloc, words)?,
            },
            fresh: number_word(words)?,
        },
    })
}

/// The happening that a line names.
#[tactic(auto, using(crate::proofs::Reading::not_done))]
pub fn happening_of(alloc: Global, words: &mut Words<'_>) -> Result<Happening, LineFault>
    ensures { Reads result (happening_line words.old) }
{
    let kind = meaning_word(&KINDS, words)?;
    let reported = happening_behind(alloc, kind, words)?;
    line_end(words)?;
    Ok(reported)
}
