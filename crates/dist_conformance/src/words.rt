//! The words that are left of a line, and fields with a key among them.

use crate::faults::ReadFault;
use crate::texts::split;
use dist_flags::Dflag;
use dist_names::{ByteString, Flags, is_same_text, number_32};
use hex::FromHexError;
use std::alloc::Global;

// The flags that are announced unless a row says otherwise: those that releases from OTP 26 on require.
const USUAL_FLAGS: u64 = 0x403070f94;

/// What a word stands for in a table of words.
pub fn meaning_of<T: Copy>(table: &[(&'static str, T)], word: &[u8]) -> Result<T, ReadFault> {
    for (known, meaning) in table {
        if is_same_text(known.as_bytes(), word) {
            return Ok(*meaning);
        }
    }
    Err(ReadFault::Bad)
}

/// The number up to this one that a word writes in decimal digits.
pub fn read_number(word: &[u8], most: u32) -> Result<u32, ReadFault> {
    match number_32(word) {
        Some(number) if number <= most => Ok(number),
        _ => Err(ReadFault::Bad),
    }
}

// What hexadecimal digits write.
fn digits_of(alloc: Global, word: &[u8]) -> Result<Vec<u8>, ReadFault> {
    match hex::decode(alloc, word) {
        Ok(bytes) => Ok(bytes),
        Err(FromHexError::OutOfMemory) => Err(ReadFault::NoMemory),
        Err(_) => Err(ReadFault::Bad),
    }
}

// Appends what `HEX` or `HEX*N` writes.
fn put_piece(alloc: Global, bytes: &mut Vec<u8>, piece: &[u8]) -> Result<(), ReadFault> {
    let parts = split(alloc, piece, b'*')?;
    let (digits, count) = match parts.as_slice() {
        [digits] => (*digits, None),
        [digits, count] => (*digits, Some(read_number(*count, 65535)?)),
        _ => return Err(ReadFault::Bad),
    };
    let more = digits_of(alloc, digits)?;
    bytes.extend_from_slice(&more)?;
    if let Some(count) = count {
        let last = more.last().copied().ok_or(ReadFault::Bad)?;
        let repeated = vec![in alloc; last; count.saturating_sub(1) as usize]?;
        bytes.extend_from_slice(&repeated)?;
    }
    Ok(())
}

// BYTES: pieces with `_` between them, each hexadecimal digits, or `HEX*N` with the last byte N times.
fn hex_bytes(alloc: Global, word: &[u8]) -> Result<ByteString, ReadFault> {
    let mut bytes = Vec::new(alloc);
    let pieces = split(alloc, word, b'_')?;
    for piece in &pieces {
        put_piece(alloc, &mut bytes, *piece)?;
    }
    Ok(ByteString::from_vec(bytes))
}

/// The flag that has this name.
pub fn flag_of(name: &[u8]) -> Result<Flags, ReadFault> {
    match Dflag::of_name(name) {
        Some(flag) => Ok(flag.flags()),
        None => Err(ReadFault::Bad),
    }
}

// The flags that a word writes: `FLAG`, `-FLAG`, or `0x` and hexadecimal digits.
fn written_flags(word: &[u8]) -> Result<Flags, ReadFault> {
    if let Some(name) = word.strip_prefix(b"-") {
        return Ok(Flags(USUAL_FLAGS & !flag_of(name)?.0));
    }
    match word.strip_prefix(b"0x") {
        Some(digits) => Flags::of_digits(digits).ok_or(ReadFault::Bad),
        None => Ok(Flags(USUAL_FLAGS | flag_of(word)?.0)),
    }
}

/// Words that are taken from the front, one after the other.
#[derive(Drop)]
pub struct LineWords<'a> {
    alloc: Global,
    left: &'a [&'a [u8]],
}

impl<'a> LineWords<'a> {
    /// All of these are left.
    pub fn new(alloc: Global, left: &'a [&'a [u8]]) -> LineWords<'a> {
        LineWords { alloc, left }
    }

    /// Takes the next one, if one is left.
    pub fn next_word(&mut self) -> Option<&'a [u8]> {
        let [word, rest @ ..] = self.left else {
            return None;
        };
        self.left = rest;
        Some(*word)
    }

    /// Takes the next one, which has to be there.
    pub fn word(&mut self) -> Result<&'a [u8], ReadFault> {
        self.next_word().ok_or(ReadFault::Bad)
    }

    /// Takes all that are left.
    pub fn take_all(&mut self) -> &'a [&'a [u8]] {
        let all = self.left;
        self.left = &[];
        all
    }

    /// Takes the next one where it is `NAME=VALUE` with this name, and returns the value. Otherwise it changes nothing.
    pub fn value(&mut self, name: &[u8]) -> Option<&'a [u8]> {
        let [word, rest @ ..] = self.left else {
            return None;
        };
        let value = word.strip_prefix(name)?.strip_prefix(b"=")?;
        self.left = rest;
        Some(value)
    }

    /// Whether the next word is this one, and then it is taken.
    pub fn mark(&mut self, mark: &[u8]) -> bool {
        match self.left {
            [word, rest @ ..] if is_same_text(*word, mark) => {
                self.left = rest;
                true
            }
            _ => false,
        }
    }

    /// The number up to `most` of this name, or the usual one where the next word has another name.
    pub fn number(&mut self, name: &[u8], usual: u32, most: u32) -> Result<u32, ReadFault> {
        match self.value(name) {
            Some(value) => read_number(value, most),
            None => Ok(usual),
        }
    }

    /// The number of this name, if the next word has it.
    pub fn optional(&mut self, name: &[u8]) -> Result<Option<u32>, ReadFault> {
        match self.value(name) {
            Some(value) => Ok(Some(read_number(value, u32::MAX)?)),
            None => Ok(None),
        }
    }

    /// The number that the next word is, or 0 where none is left.
    pub fn time(&mut self) -> Result<u32, ReadFault> {
        match self.next_word() {
            Some(word) => read_number(word, u32::MAX),
            None => Ok(0),
        }
    }

    // The bytes that a word writes, or none where there is no word.
    fn bytes(&self, word: Option<&[u8]>) -> Result<ByteString, ReadFault> {
        match word {
            Some(word) => hex_bytes(self.alloc, word),
            None => Ok(ByteString::new(self.alloc)),
        }
    }

    /// The bytes that the next word writes, or none where no word is left.
    pub fn next_bytes(&mut self) -> Result<ByteString, ReadFault> {
        let word = self.next_word();
        self.bytes(word)
    }

    /// The bytes of the name `extra`, or none where the next word has another name.
    pub fn extra(&mut self) -> Result<ByteString, ReadFault> {
        let value = self.value(b"extra");
        self.bytes(value)
    }

    /// The flags of the name `flags`, or the usual ones.
    pub fn flags(&mut self) -> Result<Flags, ReadFault> {
        match self.value(b"flags") {
            Some(value) => written_flags(value),
            None => Ok(Flags(USUAL_FLAGS)),
        }
    }

    /// A name behind `name=`, or its bytes behind `namehex=`, or the usual one.
    pub fn name(&mut self, usual: &[u8]) -> Result<ByteString, ReadFault> {
        if let Some(value) = self.value(b"namehex") {
            return hex_bytes(self.alloc, value);
        }
        let name = self.value(b"name").unwrap_or(usual);
        Ok(ByteString::from_slice(self.alloc, name)?)
    }

    /// This value, if no word is left, as none may be at the end.
    pub fn finish<T: Drop>(&self, value: T) -> Result<T, ReadFault> {
        if self.left.is_empty() {
            Ok(value)
        } else {
            Err(ReadFault::Bad)
        }
    }
}
