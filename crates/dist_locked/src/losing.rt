//! Ends that are lost.

ghost use Rattle.std.specs.Prelude.{◌≡◌, ◌≢◌, true, IfOk, IfErr};
ghost use Rattle.dist_locked.specs.Losses.{IsLost, IsGivenUp};

use crate::driven::Driven;
use crate::locked_node::LockedNode;
use dist_core::{Event, Still, Why};
use dist_drive::Outcome;
use dist_locked_book::Seat;
use dist_peers::EndId;
use std::alloc::AllocError;
use std::sync::Wait;

/// Loses an end. Where it is closed already nothing changes.
pub fn lose<R: Wait>(rt: &R, node: &LockedNode, seat: &mut Seat, end_: EndId, why: Why)
    ensures lost { IsLost end_ why seat.old.list seat.new.list }
    ensures seat { seat.new.number ≡ seat.old.number }
{
    let _ = node.step(rt, seat, &Event::Lost { end_, why }, 0);
}

/// Loses an end that its driver left open and that is not up: with GaveUp where its turns have run out, with NoMemory
/// where it was not driven at all. The seat comes back, and whether the end is over now. Source: our own choice.
pub fn settle<R: Wait>(
    rt: &R,
    node: &LockedNode,
    end_: EndId,
    driven: Result<Driven, (AllocError, Seat)>,
) -> (Seat, bool)
    ensures limit { IfOk driven (λ d. d.outcome ≡ Outcome.Limit → IsGivenUp end_ Why.GaveUp d.seat.list result.0.list result.1) }
    ensures closed { IfOk driven (λ d. d.outcome ≢ Outcome.Limit → (result.0.list ≡ d.seat.list) × (result.1 ≡ true)) }
    ensures memory { IfErr driven (λ e. IsLost end_ Why.NoMemory e.1.list result.0.list × (result.1 ≡ true)) }
{
    match driven {
        Ok(
            Driven {
                outcome: Outcome::Limit,
                mut seat,
                steps: _,
            },
        ) => match node.still(rt, end_) {
            Still::Up => (seat, false),
            _ => {
                lose(rt, node, &mut seat, end_, Why::GaveUp);
                (seat, true)
            }
        },
        Ok(driven) => (driven.seat, true),
        Err((_, mut seat)) => {
            lose(rt, node, &mut seat, end_, Why::NoMemory);
            (seat, true)
        }
    }
}
