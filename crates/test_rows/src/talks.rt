//! Talks of a probe with a node: `OWN TARGET COOKIE FRESH FLAGS HEARD SAID PIECES FAULT NUMBER`: the names of the two nodes; the
//! probe's cookie, or `-` if it is to send no reply; its challenge and its flags; the messages of the node joined by `+`, or `-` if it
//! sends none; and what the probe is to send, or `*` for anything. The last three, or the last two, may be missing.

use crate::digits::{bytes_in, put_bytes, word};
use crate::streams::{pieces_of, stream_of};
use dist_core_setup::{Limits, Setup, Version};
use dist_messages::Side;
use dist_names::{Creation, Flags, NodeName};
use dist_secret::{Cookie, Cookies};
use dist_stream::FaultStream;
use dist_talk::{HandshakeVerdict, NoCookie, OwnSide, Terms, Viewpoint, speak};
use std::alloc::Global;
use std::fmt::Write;

// More reads and writes than any talk makes.
const MOST_TURNS: usize = 10_000;

/// Reports the verdict; before it what was sent, if that is wrong.
pub fn put_talk(alloc: Global, printed: &mut String, talk: &str, pieces: &str) -> Option<()> {
    let pieces = pieces_of(word(talk, 7), pieces);
    let mut stream = stream_of(alloc, word(talk, 5), pieces, word(talk, 8), word(talk, 9))?;
    put_talk_over(alloc, printed, talk, &mut stream)
}

fn put_talk_over(
    alloc: Global,
    printed: &mut String,
    talk: &str,
    stream: &mut FaultStream,
) -> Option<()> {
    let verdict = verdict_over(alloc, talk, stream)?;
    put_said(alloc, printed, word(talk, 6), stream.output())?;
    put_verdict(printed, verdict)
}

fn put_said(alloc: Global, printed: &mut String, wanted: &str, said: &[u8]) -> Option<()> {
    if wanted == "*" || bytes_in(alloc, wanted)?.as_slice() == said {
        return Some(());
    }
    put_bytes(alloc, printed, said)
}

fn put_verdict(printed: &mut String, verdict: HandshakeVerdict) -> Option<()> {
    match verdict {
        HandshakeVerdict::LacksFlags(side, flags) => {
            write!(printed, "LacksFlags({side:?}, {:x}) ", flags.0).ok()
        }
        other => write!(printed, "{other:?} ").ok(),
    }
}

fn verdict_over(alloc: Global, talk: &str, stream: &mut FaultStream) -> Option<HandshakeVerdict> {
    let fresh = word(talk, 3).parse::<u32>().ok()?;
    let target = name_at(alloc, talk, 1)?;
    let setup = setup_of(alloc, talk)?;
    let cookie = Cookie::from_bytes(alloc, word(talk, 2).as_bytes()).ok()?;
    let terms = Terms {
        viewpoint: Viewpoint::Dialler,
        target: Some(target.bytes()),
        cookie: if word(talk, 2) == "-" {
            Err(NoCookie::Asked)
        } else {
            Ok(&cookie)
        },
    };
    let own = OwnSide {
        side: Side::Dialler,
        setup: &setup,
        terms,
        fresh,
    };
    Some(speak(alloc, stream, &own, MOST_TURNS).verdict(&terms))
}

fn name_at(alloc: Global, talk: &str, place: usize) -> Option<NodeName> {
    NodeName::new(alloc, word(talk, place).as_bytes()).ok()
}

fn setup_of(alloc: Global, talk: &str) -> Option<Setup> {
    let flags = u64::from_str_radix(word(talk, 4), 16).ok()?;
    let cookie = Cookie::from_bytes(alloc, word(talk, 2).as_bytes()).ok()?;
    Some(Setup {
        name: name_at(alloc, talk, 0)?,
        cookies: Cookies::new(alloc, cookie),
        version: Version::Six,
        flags: Flags(flags),
        required: Flags(0),
        creation: Creation(77),
        allow: None,
        limits: Limits::usual(),
    })
}
