//! The first 32 bytes of a text as four numbers. Where they differ, they order the texts as the bytes themselves do, so that most
//! names are compared without a look at their texts.

ghost use Rattle.std.specs.{Prelude.◌≡◌, Prelude.drop, List.slice_index};
ghost use Rattle.dist_names.specs.Front.{front_number, front_numbers};

// The byte in this place, or zero where the text has ended.
fn byte_or_zero(text: &[u8], place: usize) -> u8
    ensures { result ≡ slice_index text.now place }
{
    text.get(place).copied().unwrap_or(0)
}

// The first eight bytes as one number, where there may be fewer.
fn short_front(text: &[u8]) -> u64
    ensures { result ≡ front_number text.now }
{
    u64::from_be_bytes([
        byte_or_zero(text, 0),
        byte_or_zero(text, 1),
        byte_or_zero(text, 2),
        byte_or_zero(text, 3),
        byte_or_zero(text, 4),
        byte_or_zero(text, 5),
        byte_or_zero(text, 6),
        byte_or_zero(text, 7),
    ])
}

/// The first eight bytes as one number: the first byte is the highest, and zeros stand behind a shorter text.
#[tactic(auto, using(crate::proofs::Fronts::of_eight))]
pub(crate) fn front_number(text: &[u8]) -> u64
    ensures { result ≡ front_number text.now }
{
    match text.first_chunk::<8>() {
        Some(eight) => u64::from_be_bytes(*eight),
        None => short_front(text),
    }
}

/// What stands behind so many bytes.
pub(crate) fn behind(text: &[u8], count: usize) -> &[u8]
    ensures { result.now ≡ drop count text.now }
{
    text.get(count..).unwrap_or(&[])
}

/// The first 32 bytes as four numbers.
pub(crate) fn front_numbers(text: &[u8]) -> (u64, u64, u64, u64)
    ensures { result ≡ front_numbers text.now }
{
    (
        front_number(text),
        front_number(behind(text, 8)),
        front_number(behind(text, 16)),
        front_number(behind(text, 24)),
    )
}
