//! The parts of a text, and the words of a line.

ghost use Rattle.std.specs.Prelude.{◌≡◌, ◌≤◌, ◌∷◌, length, option_copied};
ghost use Rattle.dist_conformance.specs.Texts.{parts_of, parts_in, bytes_left};

use memchr::memchr;
use std::alloc::{AllocError, Global};

/// What stands before the first of these bytes in a text, and what stands behind it, where there is one.
pub fn first_part(text: &[u8], byte: u8) -> (&[u8], Option<&[u8]>)
    ensures parts { parts_of byte text.now ≡ result.0.now ∷ parts_in byte (option_copied result.1) }
    ensures fewer { bytes_left (option_copied result.1) ≤ length text.now }
{
    match memchr(byte, text) {
        Some(place) => (&text[..place], Some(&text[place + 1..])),
        None => (text, None),
    }
}

/// What stands between the places of this byte in a text: one part more than there are such bytes. It fails only where memory runs out.
pub fn split<'t>(alloc: Global, text: &'t [u8], byte: u8) -> Result<Vec<&'t [u8]>, AllocError> {
    let mut parts = Vec::new(alloc);
    for part in text.split(|one| *one == byte) {
        parts.push(part)?;
    }
    Ok(parts)
}

/// The words of a line: what stands between its spaces, where that has some bytes. It fails only where memory runs out.
pub fn words_of<'t>(alloc: Global, line: &'t [u8]) -> Result<Vec<&'t [u8]>, AllocError> {
    let mut words = Vec::new(alloc);
    for part in line.split(|one| *one == b' ') {
        if !part.is_empty() {
            words.push(part)?;
        }
    }
    Ok(words)
}
