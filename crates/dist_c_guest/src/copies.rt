//! Bytes, copied to the caller's room, and bodies of frames that stand one after another.
ghost use Rattle.std.specs.Prelude.{◌≡◌, option_copied, slice_get};
ghost use Rattle.dist_c_guest.specs.{Bodies.CopiesAt, Steps.Copies, Steps.sent_bytes};
ghost use Rattle.dist_frames.specs.Stream.{bodies};

use crate::codes::{NO_ROOM, NO_SUCH, OK};
use crate::guest::Guest;
use dist_frames::first_body;

/// Copies a text to the front of the room, where it fits, and reports its length.
pub fn copy_out(text: &[u8], room: &mut [u8], len: &mut usize) -> u32
    ensures { Copies text.now result len.new room.old room.new }
{
    *len = text.len();
    if room.len() < text.len() {
        return NO_ROOM;
    }
    let (front, _) = room.split_at_mut(text.len());
    front.copy_from_slice(text);
    OK
}

/// The bytes that the newest step sends.
pub fn sent_bytes(guest: &Guest) -> &[u8]
    ensures { result.now ≡ sent_bytes guest.now.last }
{
    match &guest.last {
        Some(reply) => reply.say.as_slice(),
        None => &[],
    }
}

/// The body at this place, from 0 on, of the whole frames that these bytes begin with. It takes no memory.
#[tactic(auto, using(crate::proofs::Places::fits, crate::proofs::Places::none_there, crate::proofs::Places::goes_on))]
pub fn body_at(bytes: &[u8], place: usize) -> Option<&[u8]>
    ensures { option_copied result ≡ slice_get (bodies bytes.now) place }
{
    let mut rest = bytes;
    let mut left = place;
    while left > 0 {
        let body = first_body(rest)?;
        let (_, behind) = rest.split_at(2 + body.len());
        rest = behind;
        left -= 1;
    }
    first_body(rest)
}

/// Copies the body at a place of what the newest step sends, without its length.
pub fn copy_body(guest: &Guest, place: usize, room: &mut [u8], len: &mut usize) -> u32
    ensures { CopiesAt (slice_get (bodies (sent_bytes guest.now.last)) place) result len.old len.new room.old room.new }
{
    match body_at(sent_bytes(guest), place) {
        Some(body) => copy_out(body, room, len),
        None => NO_SUCH,
    }
}
