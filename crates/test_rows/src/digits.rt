//! The words of a row, and bytes in hexadecimal digits. Each word that is reported has a blank after it.

use std::alloc::Global;
use std::fmt::Write;

/// The word at this place of a row; empty if the row has too few words.
pub fn word(row: &str, place: usize) -> &str {
    row.split(' ').nth(place).unwrap_or("")
}

/// The bytes that digits write: parts joined by `+`; `78*255` is a byte repeated this many times, and `-` is no byte.
pub fn bytes_in(alloc: Global, digits: &str) -> Option<Vec<u8>> {
    let mut bytes = Vec::new(alloc);
    put_parts(alloc, &mut bytes, digits)?;
    Some(bytes)
}

fn put_parts(alloc: Global, bytes: &mut Vec<u8>, digits: &str) -> Option<()> {
    for part in digits.split('+') {
        put_part(alloc, bytes, part)?;
    }
    Some(())
}

fn put_part(alloc: Global, bytes: &mut Vec<u8>, part: &str) -> Option<()> {
    if part == "-" {
        return Some(());
    }
    let (digits, times) = part.split_once('*').unwrap_or((part, "1"));
    let times = times.parse::<usize>().ok()?;
    let part = hex::decode(alloc, digits).ok()?;
    put_often(bytes, &part, times)
}

fn put_often(bytes: &mut Vec<u8>, part: &[u8], times: usize) -> Option<()> {
    for _ in 0..times {
        bytes.extend_from_slice(part).ok()?;
    }
    Some(())
}

/// Reports a word.
pub fn put_word(printed: &mut String, word: &str) -> Option<()> {
    printed.push_str(word).ok()?;
    printed.push_str(" ").ok()
}

/// Reports a number.
pub fn put_number(printed: &mut String, number: u64) -> Option<()> {
    write!(printed, "{number} ").ok()
}

/// Reports bytes as digits.
pub fn put_bytes(alloc: Global, printed: &mut String, bytes: &[u8]) -> Option<()> {
    if bytes.is_empty() {
        return put_word(printed, "-");
    }
    let digits = hex::encode(alloc, bytes).ok()?;
    put_word(printed, &digits)
}
