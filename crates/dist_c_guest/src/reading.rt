//! How a guest reads the bodies of the frames that come.
ghost use Rattle.std.specs.{Prelude.◌≡◌, Prelude.◌++◌, Prelude.IfOk, Prelude.take, Prelude.drop, Int.w32, Int.w64};
ghost use Rattle.dist_c_guest.specs.{Reading.expansion, Reading.in_place, Whole.is_whole};

use crate::forms::Forms;
use dist_core_setup::{Setup, announced_by};
use dist_names::{ByteString, Flags};
use std::alloc::{AllocError, Global};

/// `DFLAG_MANDATORY_25_DIGEST`: OTP 25 and later read it as all the flags that they ask for, so that a later release may
/// announce it alone.
const DIGEST_25: Flags = Flags(0x4000000);

/// The flags that OTP 25 asks for: those that `DFLAG_MANDATORY_25_DIGEST` stands for.
const MANDATORY_25: Flags = Flags(0x1070f94);

/// How a guest reads what comes.
#[derive(Drop)]
pub struct Reading {
    /// The flags that `DFLAG_MANDATORY_25_DIGEST` stands for in the flags of a peer, and none where it stands for nothing.
    pub mandatory: Flags,
    /// The forms of names that may connect beside the names in the node's own list.
    pub forms: Forms,
}

/// Whether a node of this setup, to which the digest stands for these flags, is whole: where it announces the digest it
/// announces what that stands for, and to itself the digest stands for just that, or for nothing. In a world of such nodes
/// reading by the digest changes nothing, so that they agree as others do.
pub fn is_whole(setup: &Setup, mandatory: Flags) -> bool
    ensures { result ≡ is_whole setup.now mandatory.0 }
{
    let announced = announced_by(setup);
    (mandatory.0 == 0 || mandatory.0 == MANDATORY_25.0)
        && (!announced.has(DIGEST_25) || announced.has(MANDATORY_25))
}

// Three rows of bytes, one behind another.
fn concatenation(
    alloc: Global,
    front: &[u8],
    field: &[u8],
    behind: &[u8],
) -> Result<ByteString, AllocError>
    ensures { IfOk result (λ row. row ≡ front.now ++ field.now ++ behind.now) }
{
    let mut row = ByteString::from_slice(alloc, front)?;
    row.append(field)?;
    row.append(behind)?;
    Ok(row)
}

/// The bytes before a place, and those from it on.
pub fn parts_at(body: &[u8], place: usize) -> (&[u8], &[u8])
    ensures { (result.0.now ≡ take place body.now) × (result.1.now ≡ drop place body.now) }
{
    if body.len() < place {
        return (body, &[]);
    }
    body.split_at(place)
}

// A body whose flags are 8 bytes behind the tag.
fn expand_new(alloc: Global, mask: u64, body: &[u8]) -> Result<ByteString, AllocError>
    ensures { IfOk result (λ row. row ≡ in_place w64 1 mask body.now) }
{
    let (front, rest) = parts_at(body, 1);
    let Some((field, behind)) = rest.split_first_chunk::<8>() else {
        return ByteString::from_slice(alloc, body);
    };
    let flags = u64::from_be_bytes(*field);
    if !Flags(flags).has(DIGEST_25) {
        return ByteString::from_slice(alloc, body);
    }
    concatenation(alloc, front, &(flags | mask).to_be_bytes(), behind)
}

// A body whose flags are 4 bytes behind the tag and the version.
fn expand_old(alloc: Global, mask: u32, body: &[u8]) -> Result<ByteString, AllocError>
    ensures { IfOk result (λ row. row ≡ in_place w32 3 mask body.now) }
{
    let (front, rest) = parts_at(body, 3);
    let Some((field, behind)) = rest.split_first_chunk::<4>() else {
        return ByteString::from_slice(alloc, body);
    };
    let flags = u32::from_be_bytes(*field);
    if !Flags(flags as u64).has(DIGEST_25) {
        return ByteString::from_slice(alloc, body);
    }
    concatenation(alloc, front, &(flags | mask).to_be_bytes(), behind)
}

/// The body, with the flags of the mask among those of a name or a challenge in which the digest is set. All others are as they
/// came.
pub fn expand(alloc: Global, mask: Flags, body: &[u8]) -> Result<ByteString, AllocError>
    ensures { IfOk result (λ row. row ≡ expansion mask.0 body.now) }
{
    if mask.0 == 0 {
        return ByteString::from_slice(alloc, body);
    }
    match body {
        [b'N', ..] => expand_new(alloc, mask.0, body),
        [b'n', ..] => expand_old(alloc, mask.low(), body),
        _ => ByteString::from_slice(alloc, body),
    }
}
