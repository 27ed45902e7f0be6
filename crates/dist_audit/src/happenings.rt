//! The happenings of histories.
ghost use Rattle.std.specs.Prelude.{◌≡◌, IfOk, OnOk};
ghost use Rattle.dist_audit.specs.Happenings.{setups_of, begins, reach_first, before, own};

use crate::links::target_of;
use crate::mentions::Mentioned;
use crate::pairing::Lines;
use dist_core::{Event, Setup};
use dist_locked_book::Closed;
use dist_world::Happening;
use dist_world_lives::MOST_CONNECTIONS;
use std::alloc::{AllocError, Global};

/// What all nodes were set up with.
pub fn setups_of(alloc: Global, closed: &[Closed]) -> Result<Vec<Setup>, AllocError>
    ensures { IfOk result (λ setups. setups.items ≡ setups_of closed.now) }
{
    let mut setups = Vec::new(alloc);
    for i in 0..closed.len() {
        setups.push(closed[i].node.setup().try_clone(alloc)?)?;
    }
    Ok(setups)
}

/// Each node begins, with its setup's creation.
pub fn begins(alloc: Global, setups: &[Setup]) -> Result<Vec<Happening>, AllocError>
    ensures { IfOk result (λ list. list.items ≡ begins 0 setups.now) }
{
    let mut list = Vec::new(alloc);
    for node in 0..setups.len() {
        let creation = setups[node].creation;
        list.push(Happening::Begin { node, creation })?;
    }
    Ok(list)
}

// At the first mention of a link the dialling end reaches the node to which the link comes.
fn reach_first(lines: &Lines, count: usize, links: &Mentioned, link: u64) -> Option<Happening>
    ensures { result ≡ reach_first lines.now count links.now link }
{
    if links.is_among(link) {
        return None;
    }
    let (node, end_) = lines.dialler_of(link)?;
    let target = target_of(count, node, lines.acceptor_of(link));
    Some(Happening::Reach { node, end_, target })
}

/// What happens before a line of this node, where these links were mentioned before: nothing before what somebody outside did.
pub fn before(
    lines: &Lines,
    count: usize,
    links: &Mentioned,
    outside: bool,
    node: usize,
    event: &Event,
) -> Option<Happening>
    ensures { result ≡ before lines.now count links.now outside node event.now }
{
    match event {
        Event::Opened { end_: _, link } if !outside => reach_first(lines, count, links, *link),
        Event::Incoming { link } if !outside => reach_first(lines, count, links, *link),
        Event::Frame { end_, body } if !outside => Some(Happening::Deliver {
            node,
            end_: *end_,
            bytes: 2 + body.as_slice().len(),
        }),
        _ => None,
    }
}

/// The happening of a line of this node, where these links were mentioned, its own among them, by whether somebody outside did it.
pub fn own(
    alloc: Global,
    links: &Mentioned,
    outside: bool,
    node: usize,
    event: &Event,
    fresh: u32,
) -> Result<Happening, AllocError>
    ensures { IfOk result (λ h. h ≡ own links.now outside node event.now fresh) }
{
    Ok(match event {
        Event::Dial { peer, opening } => Happening::Dial {
            node,
            peer: peer.try_clone(alloc)?,
            opening: *opening,
        },
        Event::Opened { end_, link } => {
            if outside {
                let event = Event::Opened {
                    end_: *end_,
                    link: *link,
                };
                Happening::Outside { node, event, fresh }
            } else {
                Happening::Opened { node, end_: *end_ }
            }
        }
        Event::Incoming { link } => {
            if outside {
                let event = Event::Incoming {
                    link: MOST_CONNECTIONS as u64,
                };
                Happening::Outside { node, event, fresh }
            } else {
                let conn = links.conn_of(*link);
                Happening::Accept { conn }
            }
        }
        Event::Frame { end_, body } => {
            if outside {
                let event = Event::Frame {
                    end_: *end_,
                    body: body.try_clone(alloc)?,
                };
                Happening::Outside { node, event, fresh }
            } else {
                Happening::Take {
                    node,
                    end_: *end_,
                    fresh,
                }
            }
        }
        Event::Lost { end_, why } => Happening::Lose {
            node,
            end_: *end_,
            why: *why,
        },
        Event::Tick { end_ } => Happening::Tick { node, end_: *end_ },
    })
}
