//! Messages are taken apart by the forms of their fields.

ghost use Rattle.std.specs.{Prelude.◌≡◌, Prelude.option_map, Int.w16, Int.w32};
ghost use Rattle.dist_names.specs.Fields.{bytes_at, number_at};
ghost use Rattle.dist_conformance.specs.Bodies.{begins_so, sized_at, taken, behind_tick, behind_ticks, whole, value_in, number_in, number_of_32};

use crate::shapes::{FieldForm, Framing};

// Bytes behind their number, which has 2 bytes, and what stands behind them.
fn sized_16(bytes: &[u8]) -> Option<(&[u8], &[u8])>
    ensures { option_map (λ x. (x.0.now, x.1.now)) result ≡ sized_at w16 bytes.now }
{
    let (head, rest) = bytes.split_first_chunk::<2>()?;
    bytes_in_front(u16::from_be_bytes(*head) as usize, rest)
}

// Bytes behind their number, which has 4 bytes, and what stands behind them.
fn sized_32(bytes: &[u8]) -> Option<(&[u8], &[u8])>
    ensures { option_map (λ x. (x.0.now, x.1.now)) result ≡ sized_at w32 bytes.now }
{
    let (head, rest) = bytes.split_first_chunk::<4>()?;
    bytes_in_front(u32::from_be_bytes(*head) as usize, rest)
}

// So many bytes, and what stands behind them.
fn bytes_in_front(size: usize, bytes: &[u8]) -> Option<(&[u8], &[u8])>
    ensures { option_map (λ x. (x.0.now, x.1.now)) result ≡ bytes_at size bytes.now }
{
    if bytes.len() < size {
        return None;
    }
    Some(bytes.split_at(size))
}

fn begins_so(byte: u8, bytes: &[u8]) -> bool
    ensures { result ≡ begins_so byte bytes.now }
{
    match bytes {
        [first, ..] => *first == byte,
        [] => false,
    }
}

// The bytes of a field of this form, and what stands behind it.
fn take(form: FieldForm, bytes: &[u8]) -> Option<(&[u8], &[u8])>
    ensures { option_map (λ x. (x.0.now, x.1.now)) result ≡ taken form bytes.now }
{
    match form {
        FieldForm::Tag(tag) if begins_so(tag, bytes) => bytes_in_front(1, bytes),
        FieldForm::NotZero if !begins_so(0, bytes) => bytes_in_front(1, bytes),
        FieldForm::Tag(_) | FieldForm::NotZero => None,
        FieldForm::Fixed(size) => bytes_in_front(size, bytes),
        FieldForm::Sized => sized_16(bytes),
        FieldForm::Rest => Some((bytes, &[])),
    }
}

// What stands behind the tick in front, if one stands there.
fn behind_tick(bytes: &[u8]) -> Option<&[u8]>
    ensures { option_map (λ x. x.now) result ≡ behind_tick bytes.now }
{
    match bytes {
        [0, 0, 0, 0, rest @ ..] => Some(rest),
        _ => None,
    }
}

fn behind_ticks(came: &[u8]) -> &[u8]
    ensures { result.now ≡ behind_ticks came.now }
{
    let mut left = came;
    while let Some(behind) = behind_tick(left) {
        left = behind;
    }
    left
}

/// The message that comes first, where it has come whole, and what stands behind it.
pub fn whole(framing: Framing, came: &[u8]) -> Option<(&[u8], &[u8])>
    ensures { option_map (λ x. (x.0.now, x.1.now)) result ≡ whole framing came.now }
{
    match framing {
        Framing::Frame => sized_16(came),
        Framing::Packet => sized_32(behind_ticks(came)),
        Framing::Bare(size) => bytes_in_front(size.max(1), came),
    }
}

/// What stands in the field in this place, where the body has just these fields. No bytes stand in a place behind the last.
pub fn value_in<'b>(fields: &[FieldForm], place: usize, body: &'b [u8]) -> Option<&'b [u8]>
    ensures { option_map (λ value. value.now) result ≡ value_in fields.now place body.now }
{
    let mut rest = body;
    let mut value: &[u8] = &[];
    let mut number = 0;
    for form in fields {
        let (next, behind) = take(*form, rest)?;
        if number == place {
            value = next;
        }
        number += 1;
        rest = behind;
    }
    if rest.is_empty() { Some(value) } else { None }
}

/// The number that is written in the first 4 bytes.
pub fn number_of_32(bytes: &[u8]) -> Option<u32>
    ensures { result ≡ number_of_32 bytes.now }
{
    let (number, _) = bytes.split_first_chunk::<4>()?;
    Some(u32::from_be_bytes(*number))
}

/// The number that is written in the first 8 bytes, or in 4 where there are fewer; 0 where there are fewer than 4.
pub fn number_in(bytes: &[u8]) -> u64
    ensures { result ≡ number_in bytes.now }
{
    match bytes.split_first_chunk::<8>() {
        Some((number, _)) => u64::from_be_bytes(*number),
        None => u64::from(number_of_32(bytes).unwrap_or(0)),
    }
}
