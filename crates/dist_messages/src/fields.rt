//! The field at the front of a slice, and the bytes after it. The body is `Short` where the slice ends inside the field.

ghost use Rattle.std.specs.{Prelude.◌≡◌, Prelude.Some, Prelude.None, Prelude.MatchResult, Int.w16, Int.w32, Int.w64};
ghost use Rattle.dist_names.specs.Fields.{number_at, bytes_at};
ghost use Rattle.dist_messages.specs.Reading.{IsShortOf};

use crate::message_error::MessageError;

/// A number of 2 bytes.
pub fn u16_at(bytes: &[u8]) -> Result<(u16, &[u8]), MessageError>
    ensures { MatchResult result (λ x. number_at w16 bytes.now ≡ Some (x.0, x.1.now)) (IsShortOf (number_at w16 bytes.now)) }
{
    let (head, rest) = bytes.split_first_chunk::<2>().ok_or(MessageError::Short)?;
    Ok((u16::from_be_bytes(*head), rest))
}

/// A number of 4 bytes.
pub fn u32_at(bytes: &[u8]) -> Result<(u32, &[u8]), MessageError>
    ensures { MatchResult result (λ x. number_at w32 bytes.now ≡ Some (x.0, x.1.now)) (IsShortOf (number_at w32 bytes.now)) }
{
    let (head, rest) = bytes.split_first_chunk::<4>().ok_or(MessageError::Short)?;
    Ok((u32::from_be_bytes(*head), rest))
}

/// A number of 8 bytes.
pub fn u64_at(bytes: &[u8]) -> Result<(u64, &[u8]), MessageError>
    ensures { MatchResult result (λ x. number_at w64 bytes.now ≡ Some (x.0, x.1.now)) (IsShortOf (number_at w64 bytes.now)) }
{
    let (head, rest) = bytes.split_first_chunk::<8>().ok_or(MessageError::Short)?;
    Ok((u64::from_be_bytes(*head), rest))
}

/// A digest of 16 bytes.
pub fn digest_at(bytes: &[u8]) -> Result<([u8; 16], &[u8]), MessageError>
    ensures { MatchResult result (λ x. bytes_at 16 bytes.now ≡ Some (x.0, x.1.now)) (IsShortOf (bytes_at 16 bytes.now)) }
{
    let (head, rest) = bytes.split_first_chunk::<16>().ok_or(MessageError::Short)?;
    Ok((*head, rest))
}

/// Bytes of a length that another field gives.
pub fn bytes_of_len(len: usize, bytes: &[u8]) -> Result<(&[u8], &[u8]), MessageError>
    ensures { MatchResult result (λ x. bytes_at len bytes.now ≡ Some (x.0.now, x.1.now)) (IsShortOf (bytes_at len bytes.now)) }
{
    if bytes.len() < len {
        return Err(MessageError::Short);
    }
    Ok(bytes.split_at(len))
}
