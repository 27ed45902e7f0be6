//! Parts of a packet.

ghost use Rattle.std.specs.Prelude.{◌≡◌, ◌+◌, ◌≤◌, length, Ok, Err, MatchResult};
ghost use Rattle.dist_capture.specs.Parts.{part, two, four, behind, view};

use crate::skipped::Skipped;

/// So many bytes from a place on.
pub fn slice(bytes: &[u8], at: usize, count: usize) -> &[u8]
    requires { at + count ≤ length bytes.now }
    ensures { result.now ≡ part at count bytes.now }
{
    &bytes[at..at + count]
}

/// A copy of so many bytes from a place on.
pub fn part<const N: usize>(bytes: &[u8], at: usize) -> [u8; N]
    requires { at + N ≤ length bytes.now }
    ensures { result ≡ part at N bytes.now }
{
    let mut copy = [0; N];
    copy.copy_from_slice(slice(bytes, at, N));
    copy
}

/// The number in two bytes, the greater first.
pub fn two(bytes: &[u8], at: usize) -> u16
    requires { at + 2 ≤ length bytes.now }
    ensures { result ≡ two at bytes.now }
{
    u16::from_be_bytes(part(bytes, at))
}

/// The number in four bytes, the greatest first.
pub fn four(bytes: &[u8], at: usize) -> u32
    requires { at + 4 ≤ length bytes.now }
    ensures { result ≡ four at bytes.now }
{
    u32::from_be_bytes(part(bytes, at))
}

/// What stands behind so many bytes.
pub fn behind(bytes: &[u8], count: usize) -> Result<&[u8], Skipped>
    ensures { view result ≡ behind count bytes.now }
{
    if bytes.len() < count {
        return Err(Skipped::CutShort);
    }
    Ok(&bytes[count..])
}
