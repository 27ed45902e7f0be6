//! How ends stand, as C sees it.
ghost use Rattle.std.specs.Prelude.{◌≡◌, Some, slice_get, count_by, length, nat_le};
ghost use Rattle.dist_core_ends.specs.{Ends.is_open, Ends.oldest_pending, declared.known.End.End};
ghost use Rattle.dist_c_guest.specs.{Ends.ReportsEnd, Ends.ReportsId, Ends.RenewsWith, Ends.phase_number, Steps.CopiesIf};

use crate::codes::{NO_SUCH, OK, OPEN_ENDS, why_number};
use crate::copies::copy_out;
use crate::guest::Guest;
use dist_core::{Absent, End, Phase};
use dist_peers::EndId;
use std::alloc::Global;
use std::mem::size_of;

const _: () = prove!(size_of::<DnEnd>() == 16);

/// How an end stands.
#[repr(C)]
#[derive(Drop)]
pub struct DnEnd {
    /// How many bytes the name of its peer has, and 0 where none is known.
    pub peer: usize,
    /// What it awaits, 0 where it was never given out, 1 where it is closed, 12 where it is up.
    pub phase: u32,
    /// Why it is closed, and 0 where it is not.
    pub why: u32,
}

fn phase_number(phase: Phase) -> u32
    ensures { result ≡ phase_number phase }
{
    match phase {
        Phase::Dialing => 2,
        Phase::AwaitStatus => 4,
        Phase::AwaitChallenge => 5,
        Phase::AwaitAck => 6,
        Phase::AwaitTrue => 7,
        Phase::AwaitComplement => 8,
        Phase::AwaitReply => 9,
        Phase::DoomedDialing => 10,
        Phase::Doomed => 11,
    }
}

// Reports this of an end, and copies the name of its peer.
fn write_end(phase: u32, why: u32, peer: &[u8], end: &mut DnEnd, room: &mut [u8]) -> u32
    ensures stands { end.new ≡ record { peer = length peer.now; phase = phase; why = why } }
    ensures copied { CopiesIf (nat_le (length peer.now) (length room.old)) peer.now result room.old room.new }
{
    let mut len = 0;
    let code = copy_out(peer, room, &mut len);
    *end = DnEnd {
        peer: len,
        phase,
        why,
    };
    code
}

pub fn report_end(guest: &Guest, id: u32, end: &mut DnEnd, room: &mut [u8]) -> u32
    ensures { ReportsEnd (slice_get guest.now.node.ends id) result end.old end.new room.old room.new }
{
    match guest.node.open_end(EndId(id)) {
        Ok(End::Unnamed) => write_end(3, 0, &[], end, room),
        Ok(End::Attempt(attempt)) => write_end(
            phase_number(attempt.phase),
            0,
            attempt.peer.bytes(),
            end,
            room,
        ),
        Ok(End::Up(kept)) => write_end(12, 0, kept.peer.bytes(), end, room),
        Ok(End::Closed(why)) => write_end(1, why_number(*why), &[], end, room),
        Err(Absent::NoSuchEnd) => write_end(0, 0, &[], end, room),
        Err(Absent::Gone(why)) => write_end(1, why_number(why), &[], end, room),
    }
}

pub fn report_oldest(guest: &mut Guest, id: &mut u32) -> u32
    ensures reports { ReportsId (oldest_pending guest.old.node.ends) result id.old id.new }
    ensures same { guest.new ≡ guest.old }
{
    match guest.node.oldest_pending() {
        Some(oldest) => {
            *id = oldest.0;
            OK
        }
        None => NO_SUCH,
    }
}

/// Begins anew with the setup that the node has, and with the reading, where no end is open: the numbers of ends are given out from 0
/// again, and nothing is left of what was. It takes no memory.
pub fn renew(guest: &mut Guest, alloc: Global) -> u32
    ensures { RenewsWith (count_by is_open guest.old.node.ends) result guest.old (Some guest.new) }
{
    if !guest.node.renew(alloc) {
        return OPEN_ENDS;
    }
    guest.last = None;
    guest.received_status = None;
    OK
}
