//! A frame, for a host that shows its peers to others: no step closes an end that is up.
ghost use Rattle.std.specs.Prelude.{◌≡◌, Some};
ghost use Rattle.dist_c_guest.specs.{Bodies.is_short, Guard.IsGuarded, Guard.closes_up_end, Bodies.GuardsBody};

use crate::codes::{OK, SHOWN_END, TOO_LONG, step_code};
use crate::guest::Guest;
use crate::replies::{DnReply, reply_of};
use crate::stepping::is_short;
use dist_core::{Node, Reply, StepError, Still, Why};
use dist_peers::EndId;
use std::alloc::Global;

// Whether what a reply reports as closed is an end that is up.
fn closes_up_end(node: &Node, closed: &Option<(EndId, Why)>) -> bool
    ensures { result ≡ closes_up_end node.now closed.now }
{
    match closed {
        None => false,
        Some((id, _)) => matches!(node.still(*id), Still::Up),
    }
}

/// Makes the step of a frame with this body, as [`Guest::take`] does, unless it would close an end that is up: the old connection of a
/// peer that has connected anew. Then the frame is held: nothing changes, and the reply that the step would have is returned, whose
/// `closed` names that end. Once it was lost, the same frame is given again.
#[tactic(auto, using(crate::proofs::Held::held_some))]
pub fn take_guarded(
    guest: &mut Guest,
    alloc: Global,
    id: EndId,
    body: &[u8],
    fresh: u32,
) -> Result<Option<Reply>, StepError>
    ensures { IsGuarded result id body.now fresh guest.old guest.new }
{
    let reply = guest.foresee(alloc, id, body, fresh)?;
    if closes_up_end(&guest.node, &reply.closed) {
        return Ok(Some(reply));
    }
    guest.take(alloc, id, body, fresh)?;
    Ok(None)
}

/// The step of a body, where a frame can have it, unless it would close an end that is up.
pub fn guard_body(
    guest: &mut Guest,
    alloc: Global,
    id: EndId,
    body: &[u8],
    challenge: u32,
    reply: &mut DnReply,
) -> u32
    ensures { GuardsBody (is_short body.now) body.now id challenge result guest.old (Some guest.new) reply.old reply.new }
{
    if !is_short(body) {
        return TOO_LONG;
    }
    match take_guarded(guest, alloc, id, body, challenge) {
        Ok(None) => {
            if let Some(last) = &guest.last {
                *reply = reply_of(last, body.len());
            }
            OK
        }
        Ok(Some(held)) => {
            *reply = reply_of(&held, body.len());
            SHOWN_END
        }
        Err(error) => step_code(error),
    }
}
