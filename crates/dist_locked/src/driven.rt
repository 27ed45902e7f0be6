//! An end of a locked node, driven.
ghost use Rattle.std.specs.Prelude.{◌≡◌, List, [], ◌++◌, map, IfOk, IfErr};
ghost use Rattle.dist_drive.specs.Driven.{Drives};
ghost use Rattle.dist_locked_book.specs.declared.seat.Receipt.{Receipt};
ghost use Rattle.dist_locked.specs.Desks.{entry_of, desk_of, seat_facts};

use crate::locked_node::LockedNode;
use crate::seat_desk::SeatDesk;
use dist_core::{Event, Reply};
use dist_drive::{Draws, Outcome, Stream, drive};
use dist_locked_book::Seat;
use dist_peers::EndId;
use std::alloc::{AllocError, Global};
use std::sync::Wait;

/// What is left of a driven end.
#[derive(Drop)]
pub struct Driven {
    /// How the call ended.
    pub outcome: Outcome,
    /// The seat, with a receipt for each step.
    pub seat: Seat,
    /// The steps, in order: the event, its number, the reply.
    pub steps: Vec<(Event, u32, Reply)>,
}

/// Drives an end of a locked node over a stream, as `drive` does. The seat has a receipt more for each step, with its
/// event, number and reply. Where memory runs out before anything is done, the seat comes back. The lock is held for each
/// step alone, never while the stream is read or written. Source: our own choice.
pub fn drive_end<R: Wait, S: Stream, W: Draws>(
    rt: &R,
    alloc: Global,
    node: &LockedNode,
    seat: Seat,
    stream: &mut S,
    draws: &mut W,
    end_: EndId,
    first: &[u8],
    limit: usize,
) -> Result<Driven, (AllocError, Seat)>
    ensures receipts { IfOk result (λ r. (r.seat.number ≡ seat.number)
        × ((kept : List Receipt) × (r.seat.list ≡ seat.list ++ kept) × (map entry_of kept ≡ r.steps.items))) }
    ensures drives { IfOk result (λ r. Drives seat_facts W.gives
        (record { end_ = end_; first = first.now; limit = limit; stream = S.meaning stream.old; desk = desk_of end_ seat []; draws = draws.old })
        (record { stream = S.meaning stream.new; desk = desk_of end_ seat r.steps.items; draws = draws.new })
        r.outcome) }
    ensures err { IfErr result (λ e. (e.1.number ≡ seat.number) × (e.1.list ≡ seat.list)) }
{
    let mut desk = SeatDesk::new(rt, alloc, node, seat, end_)?;
    let outcome = drive(alloc, stream, &mut desk, draws, end_, first, limit);
    let (seat, steps) = desk.into_parts();
    Ok(Driven {
        outcome,
        seat,
        steps,
    })
}
