//! Sequence numbers, which are compared modulo 2^32 (RFC 9293, 3.4), and those of a segment.

ghost use Rattle.std.specs.Prelude.{◌≡◌};
ghost use Rattle.dist_conversation.specs.Numbers.{end_number, is_ahead, is_beyond, is_known_ahead, latest_number, number_of_first};

use dist_capture::Segment;

/// Whether a number comes after another one.
pub fn is_ahead(number: u32, other: u32) -> bool
    ensures { result ≡ is_ahead number other }
{
    let ahead = number.wrapping_sub(other);
    ahead != 0 && ahead < 0x8000_0000
}

/// The same, where nothing is known yet.
pub fn is_beyond(number: u32, known: Option<u32>) -> bool
    ensures { result ≡ is_beyond number known }
{
    match known {
        Some(known) => is_ahead(number, known),
        None => true,
    }
}

/// The same, where both are known.
pub fn is_known_ahead(number: Option<u32>, other: Option<u32>) -> bool
    ensures { result ≡ is_known_ahead number other }
{
    match (number, other) {
        (Some(number), Some(other)) => is_ahead(number, other),
        _ => false,
    }
}

/// The later one of the two.
pub fn latest_number(number: u32, known: Option<u32>) -> Option<u32>
    ensures { result ≡ latest_number number known }
{
    if is_beyond(number, known) {
        Some(number)
    } else {
        known
    }
}

/// The number of the first byte of a segment: a SYN counts as one before it.
pub fn first_of(segment: &Segment) -> u32
    ensures { result ≡ number_of_first segment.now }
{
    segment.sequence.wrapping_add(u32::from(segment.is_syn))
}

/// The number behind the last byte of a segment.
pub fn end_number(segment: &Segment) -> u32
    ensures { result ≡ end_number segment.now }
{
    let size = segment.payload.len().wrapping_add(segment.missing);
    first_of(segment).wrapping_add((size % 0x1_0000_0000) as u32)
}
